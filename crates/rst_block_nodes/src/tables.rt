//! Parts of tables.
ghost use Rattle.std.specs.Prelude.{◌≡◌, IfOk};
ghost use Rattle.rst_block_nodes.specs.Elements.{tgroup_node, entry_node};

use super::nodes::element_of;
use rst_tree::{Attrs, Key, Node, Result, Tag, Value};
use std::alloc::Global;

/// The group of all rows of a table whose columns have these widths, with an element for each column, without its rows
/// (Document Tree, 'tgroup').
///
/// The only refusal is [`AllocError`].
pub fn tgroup(alloc: Global, widths: &[usize], line: usize) -> Result<Node>
    ensures { IfOk result (λ node. node ≡ tgroup_node widths.now line) }
{
    let mut nodes = Vec::new(alloc);
    for width in widths {
        let attrs = Attrs::lone(alloc, Key::Colwidth, Value::Number(*width as u64))?;
        nodes.push(element_of(Tag::Colspec, attrs, Vec::new(alloc), line))?;
    }
    let attrs = Attrs::lone(alloc, Key::Cols, Value::Number(widths.len() as u64))?;
    Ok(element_of(Tag::Tgroup, attrs, nodes, line))
}

/// An entry of a table that spans this many more rows and columns than one, without its content (Document Tree, 'entry').
///
/// The only refusal is [`AllocError`].
pub fn entry(alloc: Global, morerows: usize, morecols: usize, line: usize) -> Result<Node>
    ensures { IfOk result (λ node. node ≡ entry_node morerows morecols line) }
{
    let mut attrs = Attrs::new(alloc);
    if morecols != 0 {
        attrs.set(Key::Morecols, Value::Number(morecols as u64))?;
    }
    if morerows != 0 {
        attrs.set(Key::Morerows, Value::Number(morerows as u64))?;
    }
    Ok(element_of(Tag::Entry, attrs, Vec::new(alloc), line))
}
