//! References by name.
ghost use Rattle.std.specs.Prelude.{IfOk, ◌≡◌, ◌++◌, codes, option_map};
ghost use Rattle.rst_transform_names.specs.Names.{entry_named};
ghost use Rattle.rst_transform_references.specs.Resolving.{fails_alone, label_for, named_note, note_at, notes_of, refers_back, refers_to_note, references, resolves, with_backrefs};
ghost use Rattle.rst_transform_work.specs.Known.{Makes};

use crate::failing::fail_for;
use crate::footnotes::{is_noted, label_at};
use crate::holders::{holder_place, is_lost, named_place, places_by_number};
use crate::indirect::is_reference;
use crate::leads::name_lead;
use crate::links::{Change, Links};
use crate::orders::{Order, add_pairs};
use rst_transform_names::Names;
use rst_transform_work::{Context, at_place, first_of_attribute, has, line_of, text_of_attribute};
use rst_tree::{Key, Node, Result, Tag, Text};
use std::alloc::Global;

/// Lets each reference by name refer to what the name means, and each footnote and citation list its references (Markup
/// Specification, 'Hyperlink References').
///
/// Before:
///
/// ```text
/// <paragraph>
///     <reference name="here">                       refers to `here`
///         here
///     <footnote_reference ids="footnote-reference-1">   refers to `1`
///         1
/// <target ids="here" names="here" refuri="https://x.org/">
/// <footnote ids="footnote-1" names="1">
///     <label>
///         1
/// ```
///
/// After:
///
/// ```text
/// <paragraph>
///     <reference name="here" refuri="https://x.org/">
///         here
///     <footnote_reference ids="footnote-reference-1" refid="footnote-1">
///         1
/// <target ids="here" names="here" refuri="https://x.org/">
/// <footnote backrefs="footnote-reference-1" ids="footnote-1" names="1">
///     <label>
///         1
/// ```
///
/// A name that means nothing gives an ERROR, and the reference becomes a problematic; the references inside it are gone, and
/// give no message.
pub fn resolve_names(context: &mut Context, links: &mut Links<'_>) -> Result<()>
    ensures { IfOk result (λ _. Makes (references links.old) context.old context.new links.new) }
{
    let places = places_by_number(context.alloc, links, context.serials)?;
    list_references(context.alloc, &context.names, &places, links)?;
    for place in 0..links.len() {
        resolve(context, &places, links, place)?;
    }
    Ok(())
}

/// Whether a node is a reference to a footnote or a citation.
#[inline(always)]
fn refers_to_note(node: &Node) -> bool
    ensures { result ≡ refers_to_note node.now }
{
    match node {
        Node::Element { tag, .. } => {
            matches!(tag, Tag::FootnoteReference | Tag::CitationReference)
        }
        Node::Text(_) => false,
    }
}

/// A place, if there is one and a footnote or a citation is there.
fn note_at(links: &Links<'_>, place: Option<usize>) -> Option<usize>
    ensures { result ≡ note_at place links.now }
{
    let place = place?;
    if is_noted(links.node(place)) {
        Some(place)
    } else {
        None
    }
}

/// The place of the footnote or citation that an element refers to by its name, if it does.
fn named_note(
    names: &Names,
    places: &[Option<usize>],
    links: &Links<'_>,
    node: &Node,
) -> Option<usize>
    ensures { result ≡ named_note (entry_named names.now) places.now links.now node.now }
{
    if !refers_to_note(node) {
        return None;
    }
    note_at(links, named_place(names, places, node))
}

/// For each element the place of the footnote or citation that it refers to, by its name or by the orders.
fn notes_of(
    alloc: Global,
    names: &Names,
    places: &[Option<usize>],
    links: &Links<'_>,
) -> Result<Vec<Option<usize>>>
    ensures { IfOk result (λ notes. notes.items ≡ notes_of (entry_named names.now) places.now links.now) }
{
    let notes = (0..links.len()).map(|place| named_note(names, places, links, links.node(place)));
    let mut notes = notes.collect(alloc)?;
    add_pairs(alloc, links, Order::Numbers, &mut notes)?;
    add_pairs(alloc, links, Order::Symbols, &mut notes)?;
    Ok(notes)
}

/// Lets each footnote and citation list the ids of the references to it.
fn list_references(
    alloc: Global,
    names: &Names,
    places: &[Option<usize>],
    links: &mut Links<'_>,
) -> Result<()>
    ensures { IfOk result (λ _. links.new ≡ with_backrefs (entry_named names.now) places.now links.old) }
{
    if !(0..links.len()).any(|place| refers_to_note(links.node(place))) {
        return Ok(());
    }
    let notes = notes_of(alloc, names, places, links)?;
    for place in 0..links.len() {
        let id = first_of_attribute(links.node(place), Key::Ids);
        refer_back(alloc, links, at_place(&notes, place), id)?;
    }
    Ok(())
}

/// Lets a footnote or a citation list the id of one more reference to it.
fn refer_back(
    alloc: Global,
    links: &mut Links<'_>,
    note: Option<usize>,
    id: Option<&str>,
) -> Result<()>
    ensures { IfOk result (λ _. links.new ≡ refers_back note (option_map (λ i. i.now) id.entry) links.old) }
{
    let (Some(note), Some(id)) = (note, id) else {
        return Ok(());
    };
    let id = Text::from_str(alloc, id)?;
    links.list(alloc, note, id)?;
    Ok(())
}

/// The text of a reference in place of its content, if it gets the label of the footnote or citation that holds its name.
#[inline(always)]
fn label_for(
    alloc: Global,
    links: &Links<'_>,
    reference: &Node,
    holder: Option<usize>,
) -> Result<Option<Text>>
    ensures { IfOk result (λ text. text ≡ label_for reference.now holder links.now) }
{
    if !refers_to_note(reference) || !has(reference, Key::Auto) {
        return Ok(None);
    }
    match holder {
        Some(place) => label_at(alloc, links, place),
        None => Ok(None),
    }
}

/// The words of the ERROR on a name that means nothing, before the name.
const UNKNOWN: &str = "Unknown target name: \"";

/// The same on a name that elements with equal names lost.
const DUPLICATE: &str = "Duplicate target name, cannot be used as a unique reference: \"";

/// Lets the reference at a place fail for an ERROR of its own, which has these words before its name.
fn fail_by_name(
    context: &mut Context,
    links: &mut Links<'_>,
    place: usize,
    words: &str,
    name: &str,
) -> Result<()>
    ensures { IfOk result (λ _. Makes (fails_alone place (words.now ++ (name.now ++ codes "\".")) links.old) context.old context.new links.new) }
{
    let text = Text::of_three(context.alloc, words, name, "\".")?;
    let line = line_of(links.node(place));
    fail_for(context, links, &[place], line, text)?;
    Ok(())
}

/// Lets the element at a place lead where its name leads, if it is a reference by name, or fail.
fn resolve(
    context: &mut Context,
    places: &[Option<usize>],
    links: &mut Links<'_>,
    place: usize,
) -> Result<()>
    ensures { IfOk result (λ _. Makes (resolves places.now place links.old) context.old context.new links.new) }
{
    let node = links.node(place);
    if !is_reference(node) && !refers_to_note(node) {
        return Ok(());
    }
    let Some(name) = text_of_attribute(node, Key::Refname) else {
        return Ok(());
    };
    let Some(known) = context.names.get(name) else {
        fail_by_name(context, links, place, UNKNOWN, name)?;
        return Ok(());
    };
    if is_lost(known) {
        fail_by_name(context, links, place, DUPLICATE, name)?;
        return Ok(());
    }
    let holder = holder_place(places, known.holder);
    if refers_to_note(node) && note_at(links, holder).is_none() {
        fail_by_name(context, links, place, UNKNOWN, name)?;
        return Ok(());
    }
    let lead = Some(name_lead(context.alloc, links, holder, known)?);
    let text = label_for(context.alloc, links, node, holder)?;
    links.put(place, Change::Stays { lead, text });
    Ok(())
}
