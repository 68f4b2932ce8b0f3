//! More nodes after others, in lists and in elements.
ghost use Rattle.std.specs.Prelude.{◌≡◌, ◌++◌, IfOk};
ghost use Rattle.rst_block_nodes.specs.Sections.{filled};

use rst_tree::{Children, Node, Result};
use rst_tree_index::{Marked, MarkedNodes};
use std::alloc::Global;

/// Puts more nodes after the last.
///
/// The only refusal is [`AllocError`].
pub fn append(nodes: &mut Vec<Node>, mut more: Vec<Node>) -> Result<()>
    ensures { IfOk result (λ _. nodes.new.items ≡ nodes.old.items ++ more.items) }
{
    if nodes.is_empty() {
        *nodes = more;
        return Ok(());
    }
    nodes.append(&mut more)?;
    Ok(())
}

/// An element with more nodes in it; a text stays as it is.
///
/// The only refusal is [`AllocError`].
pub fn filled(element: Node, more: Vec<Node>) -> Result<Node>
    ensures { IfOk result (λ node. node ≡ filled element more.items) }
{
    match element {
        Node::Element {
            tag,
            attrs,
            children,
            line,
        } => {
            let mut nodes = children.into_list();
            append(&mut nodes, more)?;
            Ok(Node::Element {
                tag,
                attrs,
                children: Children::of(nodes),
                line,
            })
        }
        Node::Text(text) => Ok(Node::Text(text)),
    }
}

/// The same where the marks of the nodes are known. Those of the element are found by a pass over it: it was made for these
/// nodes, and nobody marked it before. Most such elements are empty, and need no pass.
///
/// The only refusal is [`AllocError`].
pub fn completed(alloc: Global, element: Node, more: MarkedNodes) -> Result<Marked>
    ensures { IfOk result (λ node. node ≡ filled element more) }
{
    match element {
        Node::Element {
            tag,
            attrs,
            children,
            line,
        } => {
            if children.len() == 0 {
                return more.into_element(tag, attrs, line);
            }
            let mut nodes = MarkedNodes::of(alloc, children.into_list())?;
            nodes.reserve(more.len())?;
            nodes.append(more)?;
            nodes.into_element(tag, attrs, line)
        }
        Node::Text(text) => Marked::of(alloc, Node::Text(text)),
    }
}
