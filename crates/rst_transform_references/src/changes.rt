//! The document that links leave.
ghost use Rattle.std.specs.Prelude.{IfOk, ◌≡◌, drop};
ghost use Rattle.rst_tree.specs.declared.node.Node.TheVariants.{Element};
ghost use Rattle.rst_tree.specs.Rewritten.{Turned};
ghost use Rattle.rst_transform_references.specs.Changes.{change_next, change_of, changed_by, changed_document, changes_left, with_texts};

use crate::links::Change;
use rst_transform_work::{Document, take_source};
use rst_tree::{Attrs, Children, Key, Node, Result, Rewriter, Tag, Texts, Value, rewrite_in};
use rst_tree_index::is_linked_tag;
use std::alloc::Global;
use std::collections::VecDeque;
use std::marker::Model;

/// What becomes of the linked elements that are left, in the order of the document, which contracts see as the list of that.
#[derive(Drop)]
struct Changes {
    left: VecDeque<Change>,
}

impl Model for Changes {
    ghost use Rattle.std.specs.Prelude.{List};
    ghost use Rattle.rst_transform_references.specs.declared.links.Change.{Change};

    ghost Value = { List Change };

    ghost use Rattle.std.specs.Coded.{codes};
    ghost use Rattle.rst_transform_references.specs.contracts.links.Change as row;

    ghost coded = { Prim.hlevel (codes, row.the_row.coded) };

    ghost view = { λ s. s.left.items };
}

impl Changes {
    /// Changes the parts of a linked element on a line, and returns whether its content is to be gone through.
    // Few elements are linked: the others are passed without this call.
    #[inline(never)]
    fn change(
        &mut self,
        alloc: Global,
        tag: &mut Tag,
        attrs: &mut Attrs,
        children: &mut Children,
        line: usize,
    ) -> Result<bool>
        ensures state { IfOk result (λ _. self.new ≡ changes_left self.old) }
        ensures change { IfOk result (λ stays. Turned (changed_by self.old tag.old attrs.old line) (Element tag.old attrs.old children.old line) (Element tag.new attrs.new children.new line) stays) }
    {
        match self.left.pop_front() {
            None => Ok(true),
            Some(Change::Stays { lead, text }) => {
                if let Some(lead) = lead {
                    attrs.set(lead.key, Value::Text(lead.text))?;
                }
                let Some(text) = text else {
                    return Ok(true);
                };
                children.set_lone(Node::Text(text))?;
                Ok(false)
            }
            Some(Change::Lists { names, backrefs }) => {
                set_texts(attrs, Key::Names, names)?;
                set_texts(attrs, Key::Backrefs, backrefs)?;
                Ok(true)
            }
            Some(Change::Failed { attrs: own, inside }) => {
                skip(&mut self.left, inside);
                let source = take_source(alloc, attrs)?;
                *tag = Tag::Problematic;
                own.tell(alloc, attrs)?;
                children.set_lone(Node::Text(source))?;
                Ok(false)
            }
        }
    }
}

/// Passes over a number of changes.
fn skip(left: &mut VecDeque<Change>, count: usize)
    ensures { left.new.items ≡ drop count left.old.items }
{
    for _ in 0..count {
        drop(left.pop_front());
    }
}

/// Lets an attribute list these texts, if there are some.
fn set_texts(attrs: &mut Attrs, key: Key, texts: Texts) -> Result<()>
    ensures { IfOk result (λ _. attrs.new ≡ with_texts key texts attrs.old) }
{
    if texts.as_slice().is_empty() {
        return Ok(());
    }
    attrs.set(key, Value::List(texts))
}

impl Rewriter for Changes {
    ghost entered = { change_next };

    ghost becomes = { change_of };

    fn turn(&mut self, alloc: Global, element: &mut Node) -> Result<bool> {
        if let Node::Element {
            tag,
            attrs,
            children,
            line,
        } = element
        {
            if !is_linked_tag(*tag) {
                return Ok(true);
            }
            return self.change(alloc, tag, attrs, children, *line);
        }
        Ok(false)
    }
}

/// A document in which its linked elements changed.
pub fn with_changes(alloc: Global, mut document: Document, changes: Vec<Change>) -> Result<Document>
    ensures { IfOk result (λ after. after ≡ changed_document changes.items document) }
{
    if changes.is_empty() {
        return Ok(document);
    }
    let mut changes = Changes {
        left: VecDeque::from_vec(changes),
    };
    rewrite_in(alloc, &mut document.children, &mut changes)?;
    Ok(document)
}
