//! Grid tables: which lines they are, and what is wrong with them.
ghost use Rattle.std.specs.Prelude.{◌≡◌, ◌+◌, ◌^◌, ◌<◌, ◌≤◌, true, length, map, drop, take, IfOk, OnOk, IfSome, chars};
ghost use Rattle.rst_markup_blocks.specs.Prelude.{Looked, capped, block_of};
ghost use Rattle.rst_markup_lines.specs.Border.{is_grid_border};
ghost use Rattle.rst_markup_blocks.specs.Lines.{lines_while};
ghost use Rattle.rst_markup_blocks.specs.TableRows.{grid_bottom, grid_size, grid_scan};
ghost use Rattle.rst_markup_blocks.specs.declared.lines.LineTest.TheVariants.{Drawn};
ghost use Rattle.rst_markup_tables.specs.Places.{AreNumbered, rows_of};
ghost use Rattle.rst_markup_tables.specs.GridTable as spec;

use super::Result;
use super::drawn::is_upright;
use super::places::{Place, TableLine, consists_of, line_of, mark_at, row_at, width};
use super::results::TableDetail;
use rst_markup_blocks::is_drawn;
use rst_markup_lines::is_grid_border;
use rst_text::{Looks, View};
use std::alloc::Global;

/// Lines of a grid table, and its bottom border, counted from the top one.
#[derive(Drop)]
pub(crate) struct GridLines {
    pub(crate) lines: Vec<TableLine>,
    pub(crate) bottom: Option<usize>,
}

/// Whether a line is a border. One that is known spares most others a look at their characters, since most are alike.
#[tactic(auto, using(crate::proofs::GridLemmas::known_border))]
fn is_border(text: &str, known: Option<&str>) -> bool
    requires { IfSome known (λ t. is_grid_border (chars t.now) ≡ true) }
    ensures { result ≡ is_grid_border (chars text.now) }
{
    if let Some(border) = known {
        if border == text {
            return true;
        }
    }
    is_grid_border(text)
}

/// The lines from a place on up to the first that doesn't begin with `+` or `|`, and the bottom border among them.
fn drawn_lines(alloc: Global, view: &View<'_>, i: usize, looks: &mut Looks) -> Result<GridLines>
    requires there { i < length (block_of view.now) }
    ensures lines { IfOk result (λ found. found.lines.items ≡ rows_of (take (lines_while Drawn (drop i (block_of view.now))) (drop i (block_of view.now)))) }
    ensures numbered { IfOk result (λ found. AreNumbered found.lines.items) }
    ensures bottom { IfOk result (λ found. found.bottom ≡ grid_bottom (drop i (block_of view.now))) }
    ensures looked { Looked 0 (grid_scan (drop i (block_of view.now))) looks.old looks.new }
    ensures each { IfOk result (λ _. capped (looks.old + lines_while Drawn (drop i (block_of view.now))) ≤ looks.new) }
{
    let mut lines = Vec::new(alloc);
    let mut bottom = None;
    let mut border = None;
    for k in i..view.len() {
        let text = view.line(k, looks);
        if !is_drawn(text) {
            return Ok(GridLines { lines, bottom });
        }
        // It may be the bottom border from the third line on.
        if k - i >= 2 && is_border(text, border) {
            bottom = Some(k - i);
            border = Some(text);
        }
        let line = line_of(alloc, view, k, text)?;
        lines.push(line)?;
    }
    Ok(GridLines { lines, bottom })
}

/// The lines of the grid table at place `i`, and its bottom border. It looks once at each line of its scan.
pub(crate) fn grid_lines(
    alloc: Global,
    view: &View<'_>,
    i: usize,
    looks: &mut Looks,
) -> Result<GridLines>
    requires there { i < length (block_of view.now) }
    ensures fits { IfOk result (λ found. i + length found.lines.items < 2 ^ 64) }
    ensures lines { IfOk result (λ found. found.lines.items ≡ rows_of (take (grid_size (drop i (block_of view.now))) (drop i (block_of view.now)))) }
    ensures numbered { IfOk result (λ found. AreNumbered found.lines.items) }
    ensures bottom { IfOk result (λ found. found.bottom ≡ grid_bottom (drop i (block_of view.now))) }
    ensures looked { Looked 0 (grid_scan (drop i (block_of view.now))) looks.old looks.new }
    ensures each { IfOk result (λ _. capped (looks.old + grid_size (drop i (block_of view.now))) ≤ looks.new) }
{
    prove!(i < view.len());
    let drawn = drawn_lines(alloc, view, i, looks)?;
    let Some(k) = drawn.bottom else {
        return Ok(drawn);
    };
    let mut lines = drawn.lines;
    lines.truncate(k + 1);
    Ok(GridLines {
        lines,
        bottom: Some(k),
    })
}

/// Whether each line has the first one's width and ends in `+` or `|`.
#[tactic(auto, unfolding(crate::specs::GridTable::is_whole))]
fn is_square(lines: &[TableLine]) -> bool
    ensures { result ≡ spec.is_square lines.now }
{
    let wide = width(lines);
    lines.iter().all(|line| {
        let row = line.places();
        row.len() == wide && is_upright(mark_at(row, row.len().saturating_sub(1)))
    })
}

/// The first line from place `low` on that is a rule between head and body: it begins with `+=`, ends with `=+`, and holds
/// only `=` and `+`.
#[tactic(auto, unfolding(crate::specs::GridTable::is_head_rule))]
pub(crate) fn head_from(lines: &[TableLine], low: usize) -> Option<usize>
    ensures value { result ≡ spec.head_from lines.now low }
    ensures within { IfSome result (λ k. k < length lines.now) }
{
    (low..lines.len()).find(|k| {
        let row = row_at(lines, *k);
        row.len() >= 4
            && mark_at(row, 0) == '+'
            && mark_at(row, 1) == '='
            && mark_at(row, row.len().saturating_sub(2)) == '='
            && mark_at(row, row.len().saturating_sub(1)) == '+'
            && consists_of(row, '=', '+')
    })
}

/// The first fault of the table's lines, the last of which is the bottom border, if there is one.
pub(crate) fn grid_fault(bottom: Option<usize>, lines: &[TableLine]) -> Option<TableDetail>
    ensures { result ≡ spec.grid_fault bottom lines.now }
{
    if bottom.is_none() {
        return Some(TableDetail::BottomBorderMissing);
    }
    if !is_square(lines) {
        return Some(TableDetail::RightEdgeBroken);
    }
    let first = head_from(lines, 0)?;
    let second = head_from(lines, first + 1)?;
    Some(TableDetail::TwoHeadRules {
        first: first + 1,
        second: second + 1,
    })
}

/// Places with `-` for each `=`.
fn dashes(alloc: Global, places: &[Place]) -> Result<Vec<Place>>
    ensures { IfOk result (λ new. new.items ≡ map spec.dash places.now) }
{
    let dashed = places.iter().map(|place| match place.mark() {
        '=' => Place::Character('-'),
        _ => *place,
    });
    dashed.collect(alloc)
}

/// Makes the rule between head and body one of `-`, if there is one.
pub(crate) fn put_dashes(
    alloc: Global,
    lines: &mut Vec<TableLine>,
    head: Option<usize>,
) -> Result<()>
    requires { IfSome head (λ k. k < length lines.old.items) }
    ensures { OnOk result (lines.new.items ≡ spec.with_dashes lines.old.items head) }
{
    if let Some(k) = head {
        let places = dashes(alloc, lines[k].places())?;
        let number = lines[k].number();
        let parts = lines[k].parts();
        let line = TableLine {
            number,
            places,
            parts,
        };
        lines[k] = line;
    }
    Ok(())
}
