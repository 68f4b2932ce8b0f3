//! Tables that are made of lists.
ghost use Rattle.std.specs.Prelude.{◌≡◌, ◌+◌, ◌++◌, ◌/◌, length, map, replicate, IfOk, option_map, unwrap_or, [], List, ℕ};
ghost use Rattle.std.specs.Option.{option_map_or};
ghost use Rattle.std.specs.Result.{result_map_both};
ghost use Rattle.rst_tree.specs.Nodes.{children_in, forest_of, nodes_of};
ghost use Rattle.rst_markup_directives.specs.Widths.{columns_in};
ghost use Rattle.rst_block_nodes.specs.ListTables as spec;
ghost use Rattle.rst_block_nodes.specs.TableRequests.{asked_in};

use super::nodes::element_of;
use super::table_faults::{TableDirective, TableFault, widths_fault};
use super::table_requests::TableOptions;
use super::table_titles::with_title;
use rst_markup_directives::Widths;
use rst_tree::{Attrs, Key, Node, Result, Tag, Text, Texts, Value};
use rst_tree_index::MarkedNodes;
use std::alloc::Global;

/// The table that a content makes, and then the messages on its title; or what is wrong with the content. The table begins with its
/// title and these messages, or with nothing (Docutils, Directives, 'List Table').
///
/// The only refusal is [`AllocError`].
pub fn list_table(
    alloc: Global,
    start: Node,
    asked: &TableOptions,
    line: usize,
    content: MarkedNodes,
) -> Result<Result<Vec<Node>, TableFault>>
    ensures { IfOk result (λ made. result_map_both (λ nodes. nodes.items) (λ fault. fault) made ≡ spec.list_table start (asked_in asked.now) line content) }
{
    let Some(items) = list_items(alloc, content) else {
        return Ok(Err(TableFault::NotOneList));
    };
    if let Some(fault) = table_fault(asked, items.as_slice()) {
        return Ok(Err(fault));
    }
    Ok(Ok(made_table(alloc, start, asked, line, items)?))
}

/// The items of a bullet list that is the only node.
fn list_items(alloc: Global, nodes: MarkedNodes) -> Option<Vec<Node>>
    ensures { option_map (λ items. items.items) result ≡ spec.only_list nodes }
{
    let mut rest = nodes.into_marked();
    if rest.len() != 1 {
        return None;
    }
    items_in(rest.next(alloc)?.into_root())
}

/// The items of a node that is a bullet list.
fn items_in(node: Node) -> Option<Vec<Node>>
    ensures { option_map (λ items. items.items) result ≡ spec.list_items node }
{
    match node {
        Node::Element {
            tag: Tag::BulletList,
            children,
            ..
        } => Some(children.into_list()),
        _ => None,
    }
}

/// How many cells a row has, if it is a list.
fn cell_count(item: &Node) -> Option<usize>
    ensures { result ≡ option_map length (spec.row_cells item.now) }
{
    let Node::Element { children, .. } = item else {
        return None;
    };
    if children.len() != 1 {
        return None;
    }
    match children.get(0) {
        Some(
            Node::Element {
                tag: Tag::BulletList,
                children: cells,
                ..
            },
        ) => Some(cells.len()),
        _ => None,
    }
}

/// How many columns a table has.
fn column_count(items: &[Node]) -> usize
    ensures { result ≡ spec.column_count items.now }
{
    match items.first() {
        Some(item) => cell_count(item).unwrap_or(0),
        None => 0,
    }
}

/// What is wrong with a table of these items.
fn table_fault(asked: &TableOptions, items: &[Node]) -> Option<TableFault>
    ensures { result ≡ spec.table_fault (asked_in asked.now) items.now }
{
    let columns = column_count(items);
    if let Some(fault) = rows_fault(columns, items) {
        return Some(fault);
    }
    if let Some(fault) = widths_fault(TableDirective::ListTable, columns as u64, &asked.widths) {
        return Some(fault);
    }
    if let Some(fault) = heads_fault(asked.heads, items.len()) {
        return Some(fault);
    }
    stubs_fault(asked.stubs, columns)
}

/// What is wrong with the first wrong one of some rows.
fn rows_fault(columns: usize, items: &[Node]) -> Option<TableFault>
    ensures { result ≡ spec.rows_fault 1 columns items.now }
{
    for (i, item) in items.iter().enumerate() {
        let Some(cells) = cell_count(item) else {
            return Some(TableFault::NoInnerList(i + 1));
        };
        if cells != columns {
            return Some(TableFault::Uneven {
                row: i + 1,
                cells,
                columns,
            });
        }
    }
    None
}

/// Whether no row is left after the head.
fn heads_fault(heads: u64, rows: usize) -> Option<TableFault>
    ensures { result ≡ spec.heads_fault heads rows }
{
    let count = rows as u64;
    if count < heads {
        return Some(TableFault::FewRows { heads, rows });
    }
    if 0 < heads && count == heads {
        return Some(TableFault::NoBody(rows));
    }
    None
}

/// Whether no column is left after the stubs.
fn stubs_fault(stubs: u64, columns: usize) -> Option<TableFault>
    ensures { result ≡ spec.stubs_fault stubs columns }
{
    let count = columns as u64;
    if count < stubs {
        return Some(TableFault::FewColumns { stubs, columns });
    }
    if 0 < stubs && count == stubs {
        return Some(TableFault::NoStubless(columns));
    }
    None
}

/// The items of a bullet list that is the only node.
fn only_list(mut nodes: Vec<Node>) -> Option<Vec<Node>>
    ensures { option_map (λ items. items.items) result ≡ spec.only_list nodes.items }
{
    if nodes.len() != 1 {
        return None;
    }
    items_in(nodes.pop()?)
}

/// The nodes in a node; a text has none.
fn nodes_in(alloc: Global, node: Node) -> Vec<Node>
    ensures nodes { result.items ≡ nodes_of (children_in node) }
    ensures forest { forest_of result.items ≡ children_in node }
{
    match node {
        Node::Element { children, .. } => children.into_list(),
        Node::Text(_text) => Vec::new(alloc),
    }
}

/// The cells of a row; none if it is no list.
fn row_cells(alloc: Global, item: Node) -> Vec<Node>
    ensures { result.items ≡ unwrap_or (spec.row_cells item) [] }
{
    match only_list(nodes_in(alloc, item)) {
        Some(cells) => cells,
        None => Vec::new(alloc),
    }
}

/// The entry of a cell.
fn entry_of(alloc: Global, item: Node) -> Node
    ensures { result ≡ spec.entry_of item }
{
    element_of(Tag::Entry, Attrs::new(alloc), nodes_in(alloc, item), 0)
}

/// A row with its entries.
fn row_of(alloc: Global, item: Node) -> Result<Node>
    ensures { IfOk result (λ node. node ≡ spec.row_of item) }
{
    let cells = row_cells(alloc, item);
    let mut entries = Vec::with_capacity(alloc, cells.len())?;
    for cell in cells {
        entries.push(entry_of(alloc, cell))?;
    }
    Ok(element_of(Tag::Row, Attrs::new(alloc), entries, 0))
}

/// The widths of this many columns.
fn column_widths(alloc: Global, columns: usize, widths: &Option<Widths>) -> Result<Vec<u64>>
    ensures { IfOk result (λ made. made.items ≡ spec.column_widths columns (option_map columns_in widths.now)) }
{
    match widths {
        Some(Widths::Given(widths)) => Ok(Vec::from_slice(alloc, widths)?),
        _ => equal_widths(alloc, columns),
    }
}

/// The widths of this many columns, which are equal parts of a hundred.
fn equal_widths(alloc: Global, columns: usize) -> Result<Vec<u64>>
    ensures { IfOk result (λ made. made.items ≡ replicate columns (100 / columns)) }
{
    let mut widths = Vec::new(alloc);
    for _place in 0..columns {
        widths.push((100 / columns) as u64)?;
    }
    Ok(widths)
}

/// Columns of these widths, of which the first are stubs.
fn columns_of(alloc: Global, stubs: u64, widths: &[u64], line: usize) -> Result<Vec<Node>>
    ensures { IfOk result (λ nodes. nodes.items ≡ spec.columns_of stubs widths.now line) }
{
    let mut nodes = Vec::new(alloc);
    let mut left = stubs;
    for width in widths {
        let mut attrs = Attrs::lone(alloc, Key::Colwidth, Value::Number(*width))?;
        if 0 < left {
            attrs.set(Key::Stub, Value::Number(1))?;
        }
        nodes.push(element_of(Tag::Colspec, attrs, Vec::new(alloc), line))?;
        left = left.saturating_sub(1);
    }
    Ok(nodes)
}

/// The rows of a table with their entries.
fn rows_of(alloc: Global, items: Vec<Node>) -> Result<Vec<Node>>
    ensures { IfOk result (λ rows. rows.items ≡ map spec.row_of items.items) }
{
    let mut rows = Vec::with_capacity(alloc, items.len())?;
    for item in items {
        rows.push(row_of(alloc, item)?)?;
    }
    Ok(rows)
}

/// Adds the head of a table, if it has one, and its body.
#[tactic(auto, using(crate::proofs::ListTableLemmas::head_alone, crate::proofs::ListTableLemmas::no_body))]
fn add_rows(alloc: Global, heads: u64, mut rows: Vec<Node>, nodes: &mut Vec<Node>) -> Result<()>
    ensures { IfOk result (λ _. nodes.new.items ≡ nodes.old.items ++ spec.row_groups heads rows.items) }
{
    let mut body = Vec::new(alloc);
    if heads < rows.len() as u64 {
        body = rows.split_off(heads as usize)?;
    }
    if 0 < heads {
        nodes.push(element_of(Tag::Thead, Attrs::new(alloc), rows, 0))?;
    }
    nodes.push(element_of(Tag::Tbody, Attrs::new(alloc), body, 0))?;
    Ok(())
}

/// The group of all rows of a table, with its columns.
fn table_group(alloc: Global, asked: &TableOptions, line: usize, items: Vec<Node>) -> Result<Node>
    ensures { IfOk result (λ node. node ≡ spec.table_group (asked_in asked.now) line items.items) }
{
    let columns = column_count(items.as_slice());
    let widths = column_widths(alloc, columns, &asked.widths)?;
    let attrs = Attrs::lone(alloc, Key::Cols, Value::Number(widths.len() as u64))?;
    let mut nodes = columns_of(alloc, asked.stubs, &widths, line)?;
    let rows = rows_of(alloc, items)?;
    add_rows(alloc, asked.heads, rows, &mut nodes)?;
    Ok(element_of(Tag::Tgroup, attrs, nodes, line))
}

/// Puts the class that the widths of the columns give before those of the option.
fn add_width_class(alloc: Global, attrs: &mut Attrs, widths: &Option<Widths>) -> Result<()>
    ensures { IfOk result (λ _. attrs.new ≡ spec.with_width_class (option_map columns_in widths.now) attrs.old) }
{
    let Some(widths) = widths else {
        return Ok(());
    };
    let mut classes = Texts::new(alloc);
    classes.push(Text::from_str(alloc, widths.class())?)?;
    if let Some(Value::List(own)) = attrs.remove(Key::Classes) {
        for class in own.as_slice() {
            classes.push(class.copy()?)?;
        }
    }
    attrs.set(Key::Classes, Value::List(classes))
}

/// A table that begins with its title and the messages on this, or with nothing, and these messages after it.
fn made_table(
    alloc: Global,
    start: Node,
    asked: &TableOptions,
    line: usize,
    items: Vec<Node>,
) -> Result<Vec<Node>>
    ensures { IfOk result (λ nodes. nodes.items ≡ spec.made_table start (asked_in asked.now) line items.items) }
{
    let mut made = Vec::new(alloc);
    match start {
        Node::Element {
            tag,
            mut attrs,
            children,
            line: own_line,
        } => {
            add_width_class(alloc, &mut attrs, &asked.widths)?;
            made.push(table_group(alloc, asked, line, items)?)?;
            with_title(alloc, tag, attrs, children.into_list(), made, own_line)
        }
        Node::Text(text) => {
            made.push(Node::Text(text))?;
            Ok(made)
        }
    }
}
