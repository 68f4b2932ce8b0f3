//! Fields of a bibliography, and what is found in them.
ghost use Rattle.std.specs.Prelude.{◌≡◌, Some, None, IfOk, MatchOption};
ghost use Rattle.rst_tree.specs.Nodes.{nodes_of};
ghost use Rattle.rst_transform_work.specs.Made.{IsMadeOf};
ghost use Rattle.rst_transform_docinfo.specs.Fields.{body_without_keywords, field_in, field_read, first_text, lone, lone_in, name_text, paragraph_in, paragraph_without_keywords};

use crate::keywords::without_keywords;
use rst_transform_work::element;
use rst_tree::{Attrs, Children, Node, Result as TreeResult, Tag, Text};
use std::alloc::Global;

/// A field of a field list (Document Tree, 'field'): a name, and after it a body.
#[derive(Drop)]
pub struct Field {
    pub attrs: Attrs,
    pub name: Node,
    pub body: Node,
    pub line: usize,
}

impl Field {
    /// An element as a field, or the node back where it is none.
    #[tactic(auto, using(crate::proofs::Gathering::two_parts, crate::proofs::Gathering::no_parts))]
    pub fn of(node: Node) -> Result<Field, Node>
        ensures { IsMadeOf node (field_in node) result }
    {
        match node {
            Node::Element {
                tag: Tag::Field,
                attrs,
                children,
                line,
            } => {
                let mut parts = children.into_list();
                if parts.len() != 2 {
                    return Err(element(Tag::Field, attrs, Children::of(parts), line));
                }
                let body = parts.remove(1);
                let name = parts.remove(0);
                Ok(Field {
                    attrs,
                    name,
                    body,
                    line,
                })
            }
            node => Err(node),
        }
    }

    /// The text that names the field: that of its whole name, or of the `first` node in this alone.
    pub fn name_text(&self, alloc: Global, first: bool) -> TreeResult<Text>
        ensures { IfOk result (λ text. text ≡ name_text first self.now.name) }
    {
        if !first {
            return self.name.text_of(alloc);
        }
        match &self.name {
            Node::Element { children, .. } => first_text(alloc, children),
            Node::Text(_) => Ok(Text::new(String::new(alloc))),
        }
    }

    /// The field as it is read: with the values of keywords in its body, where they are asked for.
    pub fn read(mut self, alloc: Global, keywords: bool) -> TreeResult<Field>
        ensures { IfOk result (λ field. field ≡ field_read keywords self) }
    {
        if keywords {
            self.body = body_without_keywords(alloc, self.body)?;
        }
        Ok(self)
    }
}

/// The text of the first node.
fn first_text(alloc: Global, nodes: &Children) -> TreeResult<Text>
    ensures { IfOk result (λ text. text ≡ first_text (nodes_of nodes.now)) }
{
    match nodes.as_slice().first() {
        Some(node) => node.text_of(alloc),
        None => Ok(Text::new(String::new(alloc))),
    }
}

/// A body with the values of keywords in its one paragraph, if it has no other node.
fn body_without_keywords(alloc: Global, body: Node) -> TreeResult<Node>
    ensures { IfOk result (λ node. node ≡ body_without_keywords body) }
{
    match body {
        Node::Element {
            tag,
            attrs,
            children,
            line,
        } => {
            let mut nodes = children.into_list();
            if nodes.len() == 1 {
                replace_keywords(alloc, &mut nodes[0])?;
            }
            Ok(element(tag, attrs, Children::of(nodes), line))
        }
        text => Ok(text),
    }
}

/// Replaces keywords in a paragraph by their values, if it has one text and nothing else (Markup Specification, 'RCS Keywords').
fn replace_keywords(alloc: Global, node: &mut Node) -> TreeResult<()>
    ensures { IfOk result (λ _. node.new ≡ paragraph_without_keywords node.old) }
{
    if let Node::Element { tag, children, .. } = node
        && matches!(tag, Tag::Paragraph)
        && let Some(Node::Text(text)) = lone(children)
    {
        let text = without_keywords(alloc, text.as_str())?;
        children.set_lone(Node::Text(text))?;
    }
    Ok(())
}

/// The nodes in the one paragraph of a node, if the node contains that alone.
pub fn paragraph_in(node: &Node) -> Option<&Children>
    ensures { MatchOption result (paragraph_in node.now ≡ None) (λ nodes. paragraph_in node.now ≡ Some nodes.now) }
{
    match lone_in(node)? {
        Node::Element { tag, children, .. } if matches!(tag, Tag::Paragraph) => Some(children),
        _ => None,
    }
}

/// The only node in a node.
pub fn lone_in(node: &Node) -> Option<&Node>
    ensures { MatchOption result (lone_in node.now ≡ None) (λ only. lone_in node.now ≡ Some only.now) }
{
    match node {
        Node::Element { children, .. } => lone(children),
        Node::Text(_) => None,
    }
}

/// The only one of the nodes.
#[tactic(auto, using(crate::proofs::Gathering::lone_one, crate::proofs::Gathering::lone_none))]
pub fn lone(nodes: &Children) -> Option<&Node>
    ensures { MatchOption result (lone nodes.now ≡ None) (λ node. lone nodes.now ≡ Some node.now) }
{
    match nodes.as_slice() {
        [node] => Some(node),
        _ => None,
    }
}
