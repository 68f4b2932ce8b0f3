//! The lines of a simple table, and the fault of its borders.
ghost use Rattle.std.specs.Prelude.{◌≡◌, ◌+◌, ◌-◌, ◌<◌, ◌≤◌, length, drop, take, IfOk, IfNone};
ghost use Rattle.rst_markup_blocks.specs.Prelude.{Looked, capped, block_of};
ghost use Rattle.rst_markup_tables.specs.Places.{AreNumbered, rows_of};
ghost use Rattle.rst_markup_tables.specs.SimpleTable as spec;

use super::Result;
use super::places::{TableLine, line_of};
use super::results::TableDetail;
use rst_markup_blocks::is_as_long;
use rst_text::{Looks, View};
use std::alloc::Global;

/// The fault of the borders of the table at place `i`, by its bottom border, which is counted from there. It makes at most two
/// looks, and none where there is no such border.
pub(crate) fn border_fault(
    view: &View<'_>,
    i: usize,
    bottom: Option<usize>,
    looks: &mut Looks,
) -> Option<TableDetail>
    requires there { i < length (block_of view.now) }
    ensures fault { result ≡ spec.border_fault (drop i (block_of view.now)) bottom }
    ensures looked { Looked 0 2 looks.old looks.new }
    ensures none { IfNone bottom (looks.new ≤ looks.old) }
{
    let Some(k) = bottom else {
        return Some(TableDetail::BottomMissing);
    };
    if is_as_long(view, i, k, looks) {
        None
    } else {
        Some(TableDetail::BorderMismatch)
    }
}

/// The lines from place `from` on before place `to`, at the price of one look each.
pub(crate) fn read_lines(
    alloc: Global,
    view: &View<'_>,
    from: usize,
    to: usize,
    looks: &mut Looks,
) -> Result<Vec<TableLine>>
    requires in_order { from ≤ to }
    requires in_range { to ≤ length (block_of view.now) }
    ensures lines { IfOk result (λ lines. lines.items ≡ take (to - from) (drop from (rows_of (block_of view.now)))) }
    ensures numbered { IfOk result (λ lines. AreNumbered lines.items) }
    ensures looked { Looked 0 (to - from) looks.old looks.new }
    ensures each { IfOk result (λ _. capped (looks.old + (to - from)) ≤ looks.new) }
{
    let mut lines = Vec::new(alloc);
    for k in from..to {
        let text = view.line(k, looks);
        let line = line_of(alloc, view, k, text)?;
        lines.push(line)?;
    }
    Ok(lines)
}
