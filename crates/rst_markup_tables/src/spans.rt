//! The spans of a simple table's rules.
ghost use Rattle.std.specs.Prelude.{◌≡◌, ◌+◌, ◌^◌, ◌<◌, ◌==◌, drop, position, IfOk, IfSome};
ghost use Rattle.rst_markup_tables.specs.SimpleTable as spec;

use super::Result;
use super::places::{Place, mark_at};
use std::alloc::Global;

/// A run of marks in a rule: its places from `from` on, before `to`, and how many of the table's columns it joins.
#[derive(Clone, Copy)]
pub(crate) struct RuleSpan {
    pub(crate) from: usize,
    pub(crate) to: usize,
    pub(crate) columns: usize,
}

/// One of some spans; there is nothing in a span past the last.
pub(crate) fn span_of(spans: &[RuleSpan], k: usize) -> RuleSpan
    ensures { result ≡ spec.span_of spans.now k }
{
    let none = RuleSpan {
        from: 0,
        to: 0,
        columns: 0,
    };
    spans.get(k).copied().unwrap_or(none)
}

fn is_space(row: &[Place], place: usize) -> bool
    ensures { result ≡ spec.is_space row.now place }
{
    mark_at(row, place) == ' '
}

/// The run that begins at a place, as one column.
fn span_at(row: &[Place], from: usize) -> RuleSpan
    ensures { result ≡ spec.span_at row.now from }
{
    let end = (from..row.len()).find(|place| is_space(row, *place));
    RuleSpan {
        from,
        to: end.unwrap_or(row.len()),
        columns: 1,
    }
}

/// The runs of marks in a row, each as one column.
pub(crate) fn spans_of(alloc: Global, row: &[Place]) -> Result<Vec<RuleSpan>>
    ensures { IfOk result (λ spans. spans.items ≡ spec.spans_of row.now) }
{
    let mut spans = Vec::new(alloc);
    for place in 0..row.len() {
        let begins = !is_space(row, place) && (place == 0 || is_space(row, place - 1));
        if begins {
            spans.push(span_at(row, place))?;
            continue;
        }
    }
    Ok(spans)
}

/// The place of the first column that ends at a place.
fn ending(columns: &[RuleSpan], to: usize) -> Option<usize>
    ensures value { result ≡ position (λ c. c.to == to) columns.now }
    ensures fits { IfSome result (λ k. k + 1 < 2 ^ 64) }
{
    columns.iter().position(|column| column.to == to)
}

/// The place of the last column that a span joins, if it begins where the first does and ends where a column does.
pub(crate) fn last_joined(columns: &[RuleSpan], span: RuleSpan) -> Option<usize>
    ensures value { result ≡ spec.last_joined columns.now span }
    ensures fits { IfSome result (λ k. k + 1 < 2 ^ 64) }
{
    let first = columns.first()?;
    if first.from != span.from {
        return None;
    }
    ending(columns, span.to)
}

/// The spans after the first `n`; of fewer nothing is left.
pub(crate) fn spans_after(spans: &[RuleSpan], n: usize) -> &[RuleSpan]
    ensures { result.now ≡ drop n spans.now }
{
    &spans[n.min(spans.len())..]
}
