//! The titles of tables.
ghost use Rattle.std.specs.Prelude.{◌≡◌, map, IfOk};
ghost use Rattle.rst_block_nodes.specs.TableOfContents.{uncounted};
ghost use Rattle.rst_block_nodes.specs.TitledTables as spec;

use super::contents::append;
use super::nodes::element_of;
use rst_tree::{Attrs, Key, Node, Result, Tag};
use std::alloc::Global;

/// Nodes without the numbers of their texts' messages.
fn uncounted(alloc: Global, nodes: Vec<Node>) -> Result<Vec<Node>>
    ensures { IfOk result (λ made. made.items ≡ map uncounted nodes.items) }
{
    let mut made = Vec::new(alloc);
    for mut node in nodes {
        if let Node::Element { attrs, .. } = &mut node {
            let _count = attrs.remove(Key::TextMessages);
        }
        made.push(node)?;
    }
    Ok(made)
}

/// A table that begins with its title or without one, before these nodes, and then the messages on the title. `start` is the title and
/// these messages, or nothing.
pub(crate) fn with_title(
    alloc: Global,
    tag: Tag,
    attrs: Attrs,
    start: Vec<Node>,
    nodes: Vec<Node>,
    line: usize,
) -> Result<Vec<Node>>
    ensures { IfOk result (λ made. made.items ≡ spec.with_title tag attrs start.items nodes.items line) }
{
    let mut title = start;
    let count = if title.is_empty() { 0 } else { 1 };
    let notes = title.split_off(count)?;
    let mut content = uncounted(alloc, title)?;
    append(&mut content, nodes)?;
    let mut made = Vec::new(alloc);
    made.push(element_of(tag, attrs, content, line))?;
    append(&mut made, notes)?;
    Ok(made)
}
