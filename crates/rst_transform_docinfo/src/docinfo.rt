//! A leading field list becomes the bibliography of the document.
ghost use Rattle.std.specs.Prelude.{◌≡◌, slice_get, IfOk};
ghost use Rattle.std.specs.List.{prefix_len};
ghost use Rattle.rst_tree.specs.Nodes.{forest_of, nodes_of};
ghost use Rattle.rst_transform_docinfo.specs.Docinfo.{first_named, is_list, leading_list, list_place, nodes_with_docinfo, replaced, with_docinfo};
ghost use Rattle.rst_transform_work.specs.Known.{Makes};
ghost use Rattle.rst_transform_work.specs.Reports.{KeepsRest};
ghost use Rattle.rst_transform_work.specs.Reading.{is_title};

use crate::bibliography::Bibliography;
use rst_settings::Parts;
use rst_transform_work::{Context, Document, add_names, is_title, may_precede};
use rst_tree::{Attrs, Children, Node, Result, Tag};
use std::alloc::Global;

/// How many nodes come before the first that may not precede the field list.
fn list_place(nodes: &[Node]) -> usize
    ensures { result ≡ list_place nodes.now }
{
    for (i, node) in nodes.iter().enumerate() {
        if !is_title(node) && !may_precede(node) {
            return i;
        }
    }
    nodes.len()
}

/// How many titles come first.
fn title_count(nodes: &[Node]) -> usize
    ensures { result ≡ prefix_len is_title nodes.now }
{
    for (i, node) in nodes.iter().enumerate() {
        if !is_title(node) {
            return i;
        }
    }
    nodes.len()
}

/// Whether a field list is at a place.
fn is_list_at(nodes: &[Node], place: usize) -> bool
    ensures { result ≡ is_list (slice_get nodes.now place) }
{
    match nodes.get(place) {
        Some(Node::Element { tag, .. }) => matches!(tag, Tag::FieldList),
        _ => false,
    }
}

/// The nodes, the first of them with more ids and names.
fn with_names(alloc: Global, mut nodes: Vec<Node>, attrs: &Attrs) -> Result<Vec<Node>>
    ensures { IfOk result (λ all. all.items ≡ first_named attrs.now nodes.items) }
{
    if let Some(first) = nodes.get_mut(0) {
        add_names(alloc, first, attrs)?;
    }
    Ok(nodes)
}

/// What the fields of a field list become, the first of it with the list's ids and names, too.
fn replaced(list: Node, parts: Parts, context: &mut Context) -> Result<Vec<Node>>
    ensures nodes { IfOk result (λ nodes. nodes.items ≡ (replaced parts context.old.first_number context.old.reports.items list).0) }
    ensures reports { IfOk result (λ _. context.new.reports.items ≡ (replaced parts context.old.first_number context.old.reports.items list).1) }
    ensures rest { IfOk result (λ _. KeepsRest context.old context.new) }
{
    let Node::Element {
        attrs,
        children,
        line,
        ..
    } = list
    else {
        return Ok(Vec::new(context.alloc));
    };
    let mut bibliography = Bibliography::new(context.alloc, parts);
    for node in children.into_list() {
        bibliography.add_node(node, context)?;
    }
    let nodes = bibliography.into_nodes(context.alloc, line)?;
    with_names(context.alloc, nodes, &attrs)
}

/// The document's nodes with the bibliography in the place of a leading field list.
fn with_bibliography(children: Children, parts: Parts, context: &mut Context) -> Result<Children>
    ensures nodes { let list = leading_list (nodes_of children) in IfOk result (λ all. all ≡ forest_of (nodes_with_docinfo parts context.old.first_number context.old.reports.items list (nodes_of children)).0) }
    ensures reports { let list = leading_list (nodes_of children) in IfOk result (λ _. context.new.reports.items ≡ (nodes_with_docinfo parts context.old.first_number context.old.reports.items list (nodes_of children)).1) }
    ensures rest { IfOk result (λ _. KeepsRest context.old context.new) }
{
    let mut nodes = children.into_list();
    let place = list_place(&nodes);
    if !is_list_at(&nodes, place) {
        return Ok(Children::of(nodes));
    }
    let mut made = replaced(nodes.remove(place), parts, context)?;
    let first = title_count(&nodes);
    let mut rest = nodes.split_off(first)?;
    nodes.append(&mut made)?;
    nodes.append(&mut rest)?;
    Ok(Children::of(nodes))
}

/// Takes a field list out that is the first node of the document but for titles, comments, targets, substitution definitions
/// and messages. What its fields become comes directly after the titles: the `docinfo`, the dedication and the abstract
/// (Markup Specification, 'Bibliographic Fields').
///
/// A bibliographic field that isn't in its form stays a field, with a WARNING as the last node in its body. Any other field
/// stays one, too. What a field becomes has the field's ids and names, and the first of all has the list's. Under the part
/// `keywords`, values take the place of keywords of revision control ('RCS Keywords'). Under the part `unmarked`, the first node in
/// the name of a field says which field it is, and authors are read in the text of a paragraph without its markup.
///
/// Before:
///
/// ```text
/// <document>
///     <field_list>
///         <field>
///             <field_name>
///                 Author
///             <field_body>
///                 <paragraph>
///                     Ann
/// ```
///
/// After:
///
/// ```text
/// <document>
///     <docinfo>
///         <author>
///             Ann
/// ```
///
/// The only refusal is [`AllocError`].
pub fn docinfo(mut document: Document, parts: Parts, context: &mut Context) -> Result<Document>
    ensures { IfOk result (Makes (with_docinfo parts document) context.old context.new) }
{
    document.children = with_bibliography(document.children, parts, context)?;
    Ok(document)
}
