//! What an entry has of the title of its section.
ghost use Rattle.std.specs.Prelude.{◌≡◌, ◌++◌, IfOk};
ghost use Rattle.rst_transform_contents.specs.Title.{alternate, entry_nodes, holds_reference};

use rst_tree::{Attrs, Children, Key, Node, Result, Tag};
use std::alloc::Global;

/// Puts after others what an entry has of the nodes of a title: no reference to a footnote or a citation; of an image its alternate text; of a
/// reference, a problematic or a target what is in it; and all else.
pub fn add_entry_nodes(alloc: Global, nodes: &Children, made: &mut Vec<Node>) -> Result<()>
    ensures { IfOk result (λ _. made.new.items ≡ made.old.items ++ entry_nodes nodes.now) }
{
    for node in nodes.as_slice() {
        match node {
            Node::Text(text) => made.push(Node::Text(text.copy()?))?,
            Node::Element {
                tag,
                attrs,
                children,
                line,
            } => match *tag {
                Tag::FootnoteReference | Tag::CitationReference => {}
                Tag::Image => add_alternate(attrs, made)?,
                Tag::Problematic | Tag::Reference | Tag::Target => {
                    add_entry_nodes(alloc, children, made)?;
                }
                tag => {
                    let mut inside = Vec::new(alloc);
                    add_entry_nodes(alloc, children, &mut inside)?;
                    made.push(Node::Element {
                        tag,
                        attrs: attrs.copy(alloc)?,
                        children: Children::of(inside),
                        line: *line,
                    })?;
                }
            },
        }
    }
    Ok(())
}

/// Puts the alternate text of an image after nodes, if it has one.
fn add_alternate(attrs: &Attrs, made: &mut Vec<Node>) -> Result<()>
    ensures { IfOk result (λ _. made.new.items ≡ made.old.items ++ alternate attrs.now) }
{
    if let Some(text) = attrs.text(Key::Alt) {
        made.push(Node::Text(text.copy()?))?;
    }
    Ok(())
}

/// Whether a reference is among some nodes or in them.
pub fn holds_reference(nodes: &Children) -> bool
    ensures { result ≡ holds_reference nodes.now }
{
    for node in nodes.as_slice() {
        if let Node::Element { tag, children, .. } = node {
            if matches!(tag, Tag::Reference) || holds_reference(children) {
                return true;
            }
        }
    }
    false
}
