//! Indirect targets.
ghost use Rattle.std.specs.Prelude.{IfOk, ◌≡◌, [], ◌∷◌, filter, length, map, replicate, option_map};
ghost use Rattle.std.specs.List.{range_with_len};
ghost use Rattle.rst_transform_names.specs.Names.{entry_named, AreRegistered};
ghost use Rattle.rst_transform_references.specs.Aliases.{names_before};
ghost use Rattle.rst_transform_references.specs.Chains.{own_step};
ghost use Rattle.rst_transform_references.specs.Indirect.{all_conclude, all_lead, concludes, indirect, is_anonymous_at, is_reference_node, lists_now, missing_text, named_target, with_reference, references_to, steps_of, targets_of};
ghost use Rattle.rst_transform_references.specs.Links.{each};
ghost use Rattle.rst_transform_work.specs.Known.{Makes};
ghost use Rattle.rst_transform_work.specs.Lists.{at_place};

use crate::aliases::hold_alias;
use crate::chains::{Answer, Step, answers, indirect_name, is_indirect};
use crate::failing::fail_for;
use crate::holders::{holder_place, is_lost, named_place, places_by_number};
use crate::leads::{Lead, name_lead};
use crate::links::{Change, Links};
use crate::orders::{Order, add_pairs};
use rst_transform_names::Names;
use rst_transform_work::{Context, at_place, has, item_at, line_of, text_of_attribute};
use rst_tree::{Key, Node, Result, Tag, Text};
use std::alloc::Global;

/// Lets each target that refers to a name lead where that name leads, through further such targets (Markup Specification,
/// 'Hyperlink Targets', indirect ones).
///
/// Before:
///
/// ```text
/// <paragraph>
///     <reference anonymous="1">
///         x
/// <target anonymous="1" ids="target-1">             refers to `a`
/// <target ids="a" names="a">                        refers to `b`
/// <target ids="b" names="b" refuri="https://x.org/">
/// ```
///
/// After:
///
/// ```text
/// <paragraph>
///     <reference anonymous="1" refuri="https://x.org/">
///         x
/// <target anonymous="1" ids="target-1" refuri="https://x.org/">
/// <target ids="a" names="a" refuri="https://x.org/">
/// <target ids="b" names="b" refuri="https://x.org/">
/// ```
///
/// References by name are left to the last of these transforms. From now on they find the targets of aliases by their names, too. A target whose chain runs into a circle, or breaks at a name
/// that no element has, gives an ERROR, and the references through it become problematics of that message: message by message,
/// under each in the order of the document.
pub fn resolve_indirect(context: &mut Context, links: &mut Links<'_>) -> Result<()>
    ensures { IfOk result (λ _. Makes (indirect links.old) context.old context.new links.new) }
{
    if !(0..links.len()).any(|place| is_indirect(links.node(place))) {
        return Ok(());
    }
    let alloc = context.alloc;
    let places = places_by_number(alloc, links, context.serials)?;
    let steps = steps_of(alloc, &mut context.names, &places, links)?;
    let answers = answers(alloc, &steps)?;
    conclude_all(context, links, &places, &answers)?;
    Ok(())
}

/// Lets what each indirect target comes to happen to it and to the references to it.
fn conclude_all(
    context: &mut Context,
    links: &mut Links<'_>,
    places: &[Option<usize>],
    answers: &[Option<Answer>],
) -> Result<()>
    ensures { IfOk result (λ _. Makes (all_conclude places.now answers.now links.old) context.old context.new links.new) }
{
    let targets = targets_of(context.alloc, &context.names, places, links)?;
    let references = references_to_each(context.alloc, &targets)?;
    for (place, list) in references.iter().enumerate() {
        conclude(context, links, place, list, item_at(answers, place))?;
    }
    Ok(())
}

/// The first step from an element, if it is an indirect target.
fn own_step(
    alloc: Global,
    names: &Names,
    places: &[Option<usize>],
    links: &Links<'_>,
    node: &Node,
) -> Result<Option<Step>>
    ensures { IfOk result (λ step. step ≡ own_step (entry_named names.now) places.now links.now node.now) }
{
    let Some(name) = indirect_name(node) else {
        return Ok(None);
    };
    match names.get(name) {
        Some(known) if !is_lost(known) => {
            let holder = holder_place(places, known.holder);
            match holder {
                Some(place) if is_indirect(links.node(place)) => Ok(Some(Step::To(place))),
                _ => {
                    let lead = name_lead(alloc, links, holder, known)?;
                    Ok(Some(Step::Ends(Answer::Leads(lead))))
                }
            }
        }
        _ => {
            let name = Text::from_str(alloc, name)?;
            Ok(Some(Step::Ends(Answer::Missing(name))))
        }
    }
}

/// The first step from each indirect target, by its place; there is nothing for the other elements. It finds the aliases before it by their names,
/// too. In the end all aliases have theirs.
fn steps_of(
    alloc: Global,
    names: &mut Names,
    places: &[Option<usize>],
    links: &Links<'_>,
) -> Result<Vec<Option<Step>>>
    ensures steps { IfOk result (λ steps. steps.items ≡ steps_of (entry_named names.old) places.now links.now) }
    ensures names { IfOk result (λ _. AreRegistered names.new (names_before (length links.now.linked) places.now links.now (entry_named names.old))) }
{
    let mut steps = Vec::with_capacity(alloc, links.len())?;
    for place in 0..links.len() {
        let step = own_step(alloc, names, places, links, links.node(place))?;
        steps.push(step)?;
        hold_alias(alloc, names, places, links, place)?;
    }
    Ok(steps)
}

/// Whether a node is a reference that is none to a footnote or a citation.
pub fn is_reference(node: &Node) -> bool
    ensures { result ≡ is_reference_node node.now }
{
    match node {
        Node::Element { tag, .. } => matches!(tag, Tag::Reference),
        Node::Text(_) => false,
    }
}

/// The place of the element that a reference refers to by its name, if it does.
fn named_target(names: &Names, places: &[Option<usize>], node: &Node) -> Option<usize>
    ensures { result ≡ named_target (entry_named names.now) places.now node.now }
{
    if !is_reference(node) {
        return None;
    }
    named_place(names, places, node)
}

/// For each reference the place of the target that it refers to, by its name or by the order.
fn targets_of(
    alloc: Global,
    names: &Names,
    places: &[Option<usize>],
    links: &Links<'_>,
) -> Result<Vec<Option<usize>>>
    ensures { IfOk result (λ targets. targets.items ≡ targets_of (entry_named names.now) places.now links.now) }
{
    let targets = (0..links.len()).map(|place| named_target(names, places, links.node(place)));
    let mut targets = targets.collect(alloc)?;
    add_pairs(alloc, links, Order::Anonymous, &mut targets)?;
    Ok(targets)
}

/// For each place those of the references to the target there, by what each refers to.
fn references_to_each(alloc: Global, targets: &[Option<usize>]) -> Result<Vec<Vec<usize>>>
    ensures { IfOk result (λ lists. lists_now lists.items ≡ map (references_to targets.now) (range_with_len 0 (length targets.now))) }
{
    let mut lists = no_places(alloc, targets.len())?;
    for place in 0..targets.len() {
        add_reference(&mut lists, at_place(targets, place), place)?;
    }
    Ok(lists)
}

/// No place for each of `count` targets.
fn no_places(alloc: Global, count: usize) -> Result<Vec<Vec<usize>>>
    ensures { IfOk result (λ lists. lists_now lists.items ≡ replicate count []) }
{
    let mut lists = Vec::with_capacity(alloc, count)?;
    for _ in 0..count {
        lists.push_reserved(Vec::new(alloc));
    }
    Ok(lists)
}

/// Adds the place of a reference to those for its target, if it has one.
fn add_reference(lists: &mut Vec<Vec<usize>>, target: Option<usize>, place: usize) -> Result<()>
    ensures { IfOk result (λ _. lists_now lists.new.items ≡ with_reference target place (lists_now lists.old.items)) }
{
    if let Some(target) = target {
        if target < lists.len() {
            lists[target].push(place)?;
        }
    }
    Ok(())
}

/// Lets an indirect target and the references to it lead where it leads, by what it comes to, or lets the references fail.
fn conclude(
    context: &mut Context,
    links: &mut Links<'_>,
    target: usize,
    references: &[usize],
    answer: Option<&Answer>,
) -> Result<()>
    ensures { IfOk result (λ _. Makes (concludes target references.now (option_map (λ a. a.now) answer.entry) links.old) context.old context.new links.new) }
{
    let node = links.node(target);
    let name = text_of_attribute(node, Key::OwnName).unwrap_or("");
    let line = line_of(node);
    match answer {
        None => {}
        Some(Answer::Leads(lead)) => lead_all(context.alloc, links, lead, target, references)?,
        Some(Answer::Missing(missing)) => {
            let text = missing_text(context.alloc, name, missing.as_str())?;
            fail_for(context, links, references, line, text)?;
        }
        Some(Answer::Circular) => {
            let text = format!(in context.alloc;
                "Indirect hyperlink target \"{name}\" is circular."
            )?;
            fail_for(context, links, references, line, Text::new(text))?;
        }
    }
    Ok(())
}

/// Lets a target and the anonymous ones of the references to it lead somewhere.
fn lead_all(
    alloc: Global,
    links: &mut Links<'_>,
    lead: &Lead,
    target: usize,
    references: &[usize],
) -> Result<()>
    ensures { IfOk result (λ _. links.new ≡ all_lead lead.now (target ∷ filter (is_anonymous_at links.old) references.now) links.old) }
{
    let anonymous = references
        .iter()
        .copied()
        .filter(|place| has(links.node(*place), Key::Anonymous));
    let anonymous: Vec<usize> = anonymous.collect(alloc)?;
    let own = Some(lead.copy()?);
    links.put(
        target,
        Change::Stays {
            lead: own,
            text: None,
        },
    );
    for place in &anonymous {
        let lead = Some(lead.copy()?);
        links.put(*place, Change::Stays { lead, text: None });
    }
    Ok(())
}

/// The words of the message on a target whose chain breaks at a name that no element has.
fn missing_text(alloc: Global, name: &str, missing: &str) -> Result<Text>
    ensures { IfOk result (λ text. text ≡ missing_text name.now missing.now) }
{
    let text = format!(in alloc;
        "Indirect hyperlink target \"{name}\" refers to target \"{missing}\", which does not exist."
    )?;
    Ok(Text::new(text))
}
