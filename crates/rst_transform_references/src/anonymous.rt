//! Anonymous references.
ghost use Rattle.std.specs.Prelude.{IfOk, ◌≡◌};
ghost use Rattle.std.specs.List.{zip};
ghost use Rattle.rst_transform_references.specs.Anonymous.{anonymous, first_line, lead_to, leads_to_target};
ghost use Rattle.rst_transform_references.specs.Links.{all};
ghost use Rattle.rst_transform_work.specs.Known.{Makes};

use crate::failing::fail_for;
use crate::leads::{Lead, lead_at, lead_to_id};
use crate::links::{Change, Links};
use crate::orders::{Order, paired, references_by, targets_by};
use rst_transform_work::{Context, has, line_of};
use rst_tree::{Key, Result, Text};
use std::alloc::Global;

/// Lets the n-th anonymous reference refer to the n-th anonymous target (Markup Specification, 'Anonymous Hyperlinks').
///
/// Before:
///
/// ```text
/// <paragraph>
///     <reference anonymous="1" name="here">
///         here
/// <target anonymous="1" ids="target-1" refuri="https://x.org/">
/// ```
///
/// After:
///
/// ```text
/// <paragraph>
///     <reference anonymous="1" name="here" refuri="https://x.org/">
///         here
/// <target anonymous="1" ids="target-1" refuri="https://x.org/">
/// ```
///
/// One through an indirect target is left to the next transform. If there are more of the ones than of the others, there is
/// one ERROR, and each reference becomes a problematic.
pub fn resolve_anonymous(context: &mut Context, links: &mut Links<'_>) -> Result<()>
    ensures { IfOk result (λ _. Makes (anonymous links.old) context.old context.new links.new) }
{
    let references = references_by(context.alloc, links, Order::Anonymous)?;
    let targets = targets_by(context.alloc, links, Order::Anonymous)?;
    if references.len() == targets.len() {
        lead_to_targets(context.alloc, links, &references, &targets)?;
        return Ok(());
    }
    let line = first_line(links, &references, &targets);
    let text = format!(in context.alloc;
        "Anonymous hyperlink mismatch: {} references but {} targets.",
        references.len(),
        targets.len()
    )?;
    fail_for(context, links, &references, line, Text::new(text))?;
    Ok(())
}

/// Lets each reference lead to the target in its turn.
fn lead_to_targets(
    alloc: Global,
    links: &mut Links<'_>,
    references: &[usize],
    targets: &[usize],
) -> Result<()>
    ensures { IfOk result (λ _. links.new ≡ all leads_to_target (zip references.now targets.now) links.old) }
{
    let pairs = paired(alloc, references, targets)?;
    for pair in &pairs {
        let lead = lead_to(alloc, links, pair.1)?;
        links.put(pair.0, Change::Stays { lead, text: None });
    }
    Ok(())
}

/// Where a reference to the target at a place leads: where the target does, or else to its id, unless it is an indirect one.
fn lead_to(alloc: Global, links: &Links<'_>, target: usize) -> Result<Option<Lead>>
    ensures { IfOk result (λ lead. lead ≡ lead_to target links.now) }
{
    if let Some(lead) = lead_at(alloc, links, target)? {
        return Ok(Some(lead));
    }
    let node = links.node(target);
    if has(node, Key::Refname) {
        return Ok(None);
    }
    lead_to_id(alloc, node)
}

/// The line of the first reference, or else target.
fn first_line(links: &Links<'_>, references: &[usize], targets: &[usize]) -> usize
    ensures { result ≡ first_line references.now targets.now links.now }
{
    match references.first().or(targets.first()) {
        Some(place) => line_of(links.node(*place)),
        None => 0,
    }
}
