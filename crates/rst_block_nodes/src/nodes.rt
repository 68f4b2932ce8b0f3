//! Elements with their nodes, and those that hold a text without markup.
ghost use Rattle.std.specs.Prelude.{◌≡◌, IfOk};
ghost use Rattle.rst_block_nodes.specs.Elements.{element_of, text_nodes, plain_node, preserving, preserved_node};

use super::values::text_value;
use rst_tree::{Attrs, Children, Key, Node, Result, Tag};
use std::alloc::Global;

/// An element with these attributes, these nodes in it, and the number of its line, or 0 where it has none.
pub fn element_of(tag: Tag, attrs: Attrs, nodes: Vec<Node>, line: usize) -> Node
    ensures { result ≡ element_of tag attrs nodes.items line }
{
    Node::Element {
        tag,
        attrs,
        children: Children::of(nodes),
        line,
    }
}

/// The nodes of a text without markup: none where it is empty.
///
/// The only refusal is [`AllocError`].
pub fn text_nodes(alloc: Global, text: &str) -> Result<Vec<Node>>
    ensures { IfOk result (λ nodes. nodes.items ≡ text_nodes text.now) }
{
    let mut nodes = Vec::new(alloc);
    if !text.is_empty() {
        nodes.push(Node::text(alloc, text)?)?;
    }
    Ok(nodes)
}

/// An element whose only node is a text, unchanged; an empty text is no node.
///
/// The only refusal is [`AllocError`].
pub fn plain(alloc: Global, tag: Tag, line: usize, text: &str) -> Result<Node>
    ensures { IfOk result (λ node. node ≡ plain_node tag line text.now) }
{
    let nodes = text_nodes(alloc, text)?;
    Ok(element_of(tag, Attrs::new(alloc), nodes, line))
}

/// The attribute by which an element's white characters are kept.
pub(crate) fn preserving(alloc: Global) -> Result<Attrs>
    ensures { IfOk result (λ attrs. attrs ≡ preserving) }
{
    Attrs::lone(alloc, Key::XmlSpace, text_value(alloc, "preserve")?)
}

/// A literal block, a doctest block or a comment (Document Tree, 'literal_block'): the same as [`plain`], with the
/// attribute by which its white characters are kept.
///
/// The only refusal is [`AllocError`].
pub fn preserved(alloc: Global, tag: Tag, line: usize, text: &str) -> Result<Node>
    ensures { IfOk result (λ node. node ≡ preserved_node tag line text.now) }
{
    let attrs = preserving(alloc)?;
    let nodes = text_nodes(alloc, text)?;
    Ok(element_of(tag, attrs, nodes, line))
}
