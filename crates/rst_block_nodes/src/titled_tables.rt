//! Tables that get a title and options.
ghost use Rattle.std.specs.Prelude.{◌≡◌, map, option_map, IfOk};
ghost use Rattle.std.specs.Result.{result_map_both};
ghost use Rattle.rst_tree_index.specs.Classes.{classes_in, with_more_classes};
ghost use Rattle.rst_markup_directives.specs.Widths.{columns_in};
ghost use Rattle.rst_block_nodes.specs.TableRequests.{asked_in};
ghost use Rattle.rst_block_nodes.specs.TitledTables as spec;

use super::nodes::element_of;
use super::table_faults::{TableDirective, TableFault, widths_fault};
use super::table_requests::TableOptions;
use super::table_titles::with_title;
use rst_markup_directives::Widths;
use rst_tree::{Attrs, Key, Node, Result, Tag, Text, Texts, Value};
use rst_tree_index::MarkedNodes;
use std::alloc::Global;

/// What a table has.
#[derive(Drop)]
struct Table {
    attrs: Attrs,
    nodes: Vec<Node>,
    line: usize,
}

/// The table of a content, with its title and what its options give, and then the messages on the title; or what is wrong with the
/// content. `start` is the element with the attributes of the options, the title and these messages (Docutils, Directives, 'Table').
///
/// The only refusal is [`AllocError`].
pub fn titled_table(
    alloc: Global,
    start: Node,
    asked: &TableOptions,
    content: MarkedNodes,
) -> Result<Result<Vec<Node>, TableFault>>
    ensures { IfOk result (λ made. result_map_both (λ nodes. nodes.items) (λ fault. fault) made ≡ spec.titled_table start (asked_in asked.now) content) }
{
    let Some(table) = only_table(alloc, content) else {
        return Ok(Err(TableFault::NotOneTable));
    };
    let columns = columns_among(table.nodes.as_slice());
    if let Some(fault) = widths_fault(TableDirective::Table, columns, &asked.widths) {
        return Ok(Err(fault));
    }
    Ok(Ok(retitled(alloc, start, asked, table)?))
}

/// The parts of a table that is the only node.
fn only_table(alloc: Global, nodes: MarkedNodes) -> Option<Table>
    ensures { option_map (λ table. (table.attrs, table.nodes.items, table.line)) result ≡ spec.only_table nodes }
{
    let mut rest = nodes.into_marked();
    if rest.len() != 1 {
        return None;
    }
    table_in(rest.next(alloc)?.into_root())
}

/// The parts of a node that is a table.
fn table_in(node: Node) -> Option<Table>
    ensures { option_map (λ table. (table.attrs, table.nodes.items, table.line)) result ≡ spec.table_in node }
{
    match node {
        Node::Element {
            tag: Tag::Table,
            attrs,
            children,
            line,
        } => Some(Table {
            attrs,
            nodes: children.into_list(),
            line,
        }),
        _ => None,
    }
}

/// How many columns a node has that is the group of all rows.
fn columns_in_node(node: &Node) -> Option<u64>
    ensures { result ≡ spec.columns_in_node node.now }
{
    match node {
        Node::Element {
            tag: Tag::Tgroup,
            attrs,
            ..
        } => attrs.number(Key::Cols),
        _ => None,
    }
}

/// How many columns a table with these nodes has.
fn columns_among(nodes: &[Node]) -> u64
    ensures { result ≡ spec.columns_among nodes.now }
{
    for node in nodes {
        if let Some(columns) = columns_in_node(node) {
            return columns;
        }
    }
    0
}

/// A column of this width.
fn with_width(mut node: Node, width: u64) -> Result<Node>
    ensures { IfOk result (λ made. made ≡ spec.with_width width node) }
{
    if let Node::Element { attrs, .. } = &mut node {
        attrs.set(Key::Colwidth, Value::Number(width))?;
    }
    Ok(node)
}

/// The nodes of a group, of which the first are its columns, with these widths.
fn with_widths(alloc: Global, widths: &[u64], nodes: Vec<Node>) -> Result<Vec<Node>>
    ensures { IfOk result (λ made. made.items ≡ spec.with_widths widths.now nodes.items) }
{
    let mut made = Vec::with_capacity(alloc, nodes.len())?;
    let mut left = widths;
    for node in nodes {
        match left.split_first() {
            Some((width, more)) => {
                made.push(with_width(node, *width)?)?;
                left = more;
            }
            None => made.push(node)?,
        }
    }
    Ok(made)
}

/// A node whose columns have these widths, if it is the group of all rows.
fn resized(alloc: Global, widths: &[u64], node: Node) -> Result<Node>
    ensures { IfOk result (λ made. made ≡ spec.resized widths.now node) }
{
    match node {
        Node::Element {
            tag: Tag::Tgroup,
            attrs,
            children,
            line,
        } => {
            let nodes = with_widths(alloc, widths, children.into_list())?;
            Ok(element_of(Tag::Tgroup, attrs, nodes, line))
        }
        other => Ok(other),
    }
}

/// The nodes of a table whose columns have the widths that are asked for.
fn resized_all(alloc: Global, widths: &Option<Widths>, nodes: Vec<Node>) -> Result<Vec<Node>>
    ensures { IfOk result (λ made. made.items ≡ spec.resized_all (option_map columns_in widths.now) nodes.items) }
{
    let Some(Widths::Given(widths)) = widths else {
        return Ok(nodes);
    };
    let mut made = Vec::with_capacity(alloc, nodes.len())?;
    for node in nodes {
        made.push(resized(alloc, widths, node)?)?;
    }
    Ok(made)
}

/// The classes that the value of an attribute is, if there is one.
fn classes_in(alloc: Global, value: Option<Value>) -> Texts
    ensures { result ≡ classes_in value }
{
    match value {
        Some(Value::List(classes)) => classes,
        _ => Texts::new(alloc),
    }
}

/// Puts classes after those among some attributes.
fn add_classes(alloc: Global, attrs: &mut Attrs, more: &[Text]) -> Result<()>
    ensures { IfOk result (λ _. attrs.new ≡ with_more_classes more.now attrs.old) }
{
    let mut classes = classes_in(alloc, attrs.remove(Key::Classes));
    for class in more {
        classes.push(class.copy()?)?;
    }
    attrs.set(Key::Classes, Value::List(classes))
}

/// Puts an attribute that an option gives among others: in place of an earlier one, but classes come after earlier ones.
fn set_option(alloc: Global, attrs: &mut Attrs, key: Key, value: Value) -> Result<()>
    ensures { IfOk result (λ _. attrs.new ≡ spec.with_option key value attrs.old) }
{
    if key.code() == Key::Classes.code() {
        let more = classes_in(alloc, Some(value));
        return add_classes(alloc, attrs, more.as_slice());
    }
    attrs.set(key, value)
}

/// Puts the attributes that options give among others.
fn set_given(alloc: Global, attrs: &mut Attrs, given: Attrs) -> Result<()>
    ensures { IfOk result (λ _. attrs.new ≡ spec.with_given given attrs.old) }
{
    for option in given.into_list() {
        let key = option.key();
        set_option(alloc, attrs, key, option.into_value())?;
    }
    Ok(())
}

/// Puts the class that the widths of the columns give after the others.
fn add_last_class(alloc: Global, attrs: &mut Attrs, widths: &Option<Widths>) -> Result<()>
    ensures { IfOk result (λ _. attrs.new ≡ spec.with_last_class (option_map columns_in widths.now) attrs.old) }
{
    let Some(widths) = widths else {
        return Ok(());
    };
    let class = Texts::lone(alloc, Text::from_str(alloc, widths.class())?);
    add_classes(alloc, attrs, class.as_slice())
}

/// A table with what an element begins with that has its title, the messages on this, and the attributes that options give.
fn retitled(alloc: Global, start: Node, asked: &TableOptions, table: Table) -> Result<Vec<Node>>
    ensures { IfOk result (λ made. made.items ≡ spec.retitled start (asked_in asked.now) (table.attrs, table.nodes.items, table.line)) }
{
    match start {
        Node::Element {
            attrs: given,
            children,
            ..
        } => {
            let Table {
                mut attrs,
                nodes,
                line,
            } = table;
            set_given(alloc, &mut attrs, given)?;
            add_last_class(alloc, &mut attrs, &asked.widths)?;
            let nodes = resized_all(alloc, &asked.widths, nodes)?;
            with_title(alloc, Tag::Table, attrs, children.into_list(), nodes, line)
        }
        Node::Text(text) => {
            let mut made = Vec::new(alloc);
            made.push(Node::Text(text))?;
            Ok(made)
        }
    }
}
