//! Footnotes.
ghost use Rattle.std.specs.Prelude.{IfOk, ◌≡◌, ℕ, List, drop};
ghost use Rattle.std.specs.List.{zip};
ghost use Rattle.rst_transform_names.specs.Names.{entry_named};
ghost use Rattle.rst_transform_references.specs.Footnotes.{footnotes, is_noted, is_of_footnotes, label_at, labelled, leads_to_footnote, left_over, order_name, refer_by, with_number};
ghost use Rattle.rst_transform_references.specs.Links.{all};
ghost use Rattle.rst_transform_work.specs.Known.{Makes};

use crate::failing::fail_for;
use crate::footnote_labels::labels;
use crate::leads::lead_to_id;
use crate::links::{Change, Links};
use crate::orders::{Order, paired, references_by, target_order, targets_by};
use rst_transform_names::{Holder, NameEntry, Names, Strength};
use rst_transform_work::{
    Context, first_of_attribute, line_of, list_of_attribute, number_of_attribute,
};
use rst_tree::{Key, Node, Result, Tag, Text, Texts};
use std::alloc::Global;

/// Numbers the footnotes, and lets the references find those that they find by the order (Markup Specification,
/// 'Footnotes').
///
/// Before:
///
/// ```text
/// <paragraph>
///     <footnote_reference auto="1" ids="footnote-reference-1">
/// <footnote auto="1" ids="footnote-1">
///     <label>
///     <paragraph>
///         x
/// <footnote ids="footnote-2" names="1">
///     <label>
///         1
///     <paragraph>
///         y
/// ```
///
/// After:
///
/// ```text
/// <paragraph>
///     <footnote_reference auto="1" ids="footnote-reference-1" refid="footnote-1">
///         2
/// <footnote auto="1" ids="footnote-1" names="2">
///     <label>
///         2
///     <paragraph>
///         x
/// <footnote ids="footnote-2" names="1">
///     <label>
///         1
///     <paragraph>
///         y
/// ```
///
/// References left over become problematics of one ERROR for each of the two numberings.
pub fn resolve_footnotes(context: &mut Context, links: &mut Links<'_>) -> Result<()>
    ensures { IfOk result (λ _. Makes (footnotes links.old) context.old context.new links.new) }
{
    if !(0..links.len()).any(|place| is_of_footnotes(links.node(place))) {
        return Ok(());
    }
    let labels = labels(context.alloc, links)?;
    for label in &labels {
        label_footnote(context, links, label.0, &label.1)?;
    }
    refer_by(context, links, Order::Numbers)?;
    refer_by(context, links, Order::Symbols)?;
    Ok(())
}

/// Whether a node is a footnote or a reference to one.
fn is_of_footnotes(node: &Node) -> bool
    ensures { result ≡ is_of_footnotes node.now }
{
    match node {
        Node::Element { tag, .. } => matches!(tag, Tag::Footnote | Tag::FootnoteReference),
        Node::Text(_) => false,
    }
}

/// Whether a node is a footnote or a citation.
#[inline(always)]
pub fn is_noted(node: &Node) -> bool
    ensures { result ≡ is_noted node.now }
{
    match node {
        Node::Element { tag, .. } => matches!(tag, Tag::Footnote | Tag::Citation),
        Node::Text(_) => false,
    }
}

/// Lets the footnote at a place show a label, and have it as a name if it was written with `#` alone.
fn label_footnote(
    context: &mut Context,
    links: &mut Links<'_>,
    place: usize,
    label: &Text,
) -> Result<()>
    ensures { IfOk result (λ _. Makes (labelled (place, label.now) links.old) context.old context.new links.new) }
{
    let node = links.node(place);
    links.show_after(place, label.copy()?);
    if !Order::Numbers.is(target_order(node)) {
        return Ok(());
    }
    let mut names = list_of_attribute(context.alloc, node, Key::Names)?;
    names.push(label.copy()?)?;
    let backrefs = Texts::new(context.alloc);
    links.put(place, Change::Lists { names, backrefs });
    hold_number(context.alloc, &mut context.names, node, label.as_str())?;
    Ok(())
}

/// Lets a footnote have its number as a name, unless an element was written with that name.
fn hold_number(alloc: Global, names: &mut Names, node: &Node, number: &str) -> Result<()>
    ensures { IfOk result (λ _. (name : List ℕ) → entry_named names.new name ≡ with_number number.now node.now (entry_named names.old) name) }
{
    if names.get(number).is_some() {
        return Ok(());
    }
    let serial_and_id = (
        number_of_attribute(node, Key::Serial),
        first_of_attribute(node, Key::Ids),
    );
    let (Some(serial), Some(id)) = serial_and_id else {
        return Ok(());
    };
    let name_entry = NameEntry {
        holder: Holder::Element(serial),
        strength: Strength::Explicit,
        id: Text::from_str(alloc, id)?,
        uri: None,
    };
    names.hold(alloc, number, name_entry)
}

/// Lets the references of an order lead to the footnotes that they find, and those fail for which no footnote is left.
fn refer_by(context: &mut Context, links: &mut Links<'_>, order: Order) -> Result<()>
    ensures { IfOk result (λ _. Makes (refer_by order links.old) context.old context.new links.new) }
{
    let references = references_by(context.alloc, links, order)?;
    let footnotes = targets_by(context.alloc, links, order)?;
    lead_to_footnotes(context.alloc, links, &references, &footnotes)?;
    let left = rest_after(&references, footnotes.len());
    leave_over(context, links, order, footnotes.len(), left)?;
    Ok(())
}

/// The places after a number of them.
fn rest_after(places: &[usize], count: usize) -> &[usize]
    ensures { result.now ≡ drop count places.now }
{
    if count < places.len() {
        return &places[count..];
    }
    &[]
}

/// Lets each reference lead to the footnote in its turn.
fn lead_to_footnotes(
    alloc: Global,
    links: &mut Links<'_>,
    references: &[usize],
    footnotes: &[usize],
) -> Result<()>
    ensures { IfOk result (λ _. links.new ≡ all leads_to_footnote (zip references.now footnotes.now) links.old) }
{
    let pairs = paired(alloc, references, footnotes)?;
    for pair in &pairs {
        let lead = lead_to_id(alloc, links.node(pair.1))?;
        let text = label_at(alloc, links, pair.1)?;
        links.put(pair.0, Change::Stays { lead, text });
    }
    Ok(())
}

/// The label of the footnote or citation at a place: what it got, or else the text of its first node.
pub fn label_at(alloc: Global, links: &Links<'_>, place: usize) -> Result<Option<Text>>
    ensures { IfOk result (λ label. label ≡ label_at place links.now) }
{
    if let Some(text) = links.text_after(place) {
        return Ok(Some(text.copy()?));
    }
    let Node::Element { children, .. } = links.node(place) else {
        return Ok(None);
    };
    match children.get(0) {
        Some(label) => Ok(Some(label.text_of(alloc)?)),
        None => Ok(None),
    }
}

impl Order {
    /// What the message on references left over calls them.
    fn name(self) -> &'static str
        ensures { result.now ≡ order_name self }
    {
        match self {
            Order::Anonymous | Order::Numbers => "autonumbered",
            Order::Symbols => "symbol",
        }
    }
}

/// Lets the references of an order fail for which no footnote is left, if there are some.
fn leave_over(
    context: &mut Context,
    links: &mut Links<'_>,
    order: Order,
    footnotes: usize,
    left: &[usize],
) -> Result<()>
    ensures { IfOk result (λ _. Makes (left_over order footnotes left.now links.old) context.old context.new links.new) }
{
    let Some(first) = left.first() else {
        return Ok(());
    };
    let text = format!(in context.alloc;
        "Too many {} footnote references: only {footnotes} corresponding footnotes available.",
        order.name()
    )?;
    let line = line_of(links.node(*first));
    fail_for(context, links, left, line, Text::new(text))?;
    Ok(())
}
