//! The widths and cells of a simple table.
ghost use Rattle.std.specs.Prelude.{◌≡◌, ◌+◌, Some, None, map, MatchResult, length, IfOk};
ghost use Rattle.std.specs.List.{range_with_len};
ghost use Rattle.rst_markup_tables.specs.Places.{AreNumbered};
ghost use Rattle.rst_markup_tables.specs.SimpleTable as spec;

use super::Result;
use super::cells::{all_places, cell_lines, reaching};
use super::places::TableLine;
use super::results::{Cell, Rows, TableDetail, Widths};
use super::simple_rows::{RowLines, SimpleLines};
use super::spans::{RuleSpan, span_of};
use std::alloc::Global;

/// How wide each column is.
fn column_widths(alloc: Global, columns: &[RuleSpan], longest: usize) -> Result<Vec<usize>>
    ensures { IfOk result (λ widths. widths.items ≡ map (spec.width_of columns.now longest) (range_with_len 0 (length columns.now))) }
{
    (0..columns.len())
        .map(|k| {
            let column = span_of(columns, k);
            let width = column.to.saturating_sub(column.from);
            if columns.len().checked_sub(1) == Some(k) {
                width.max(longest.saturating_sub(column.from))
            } else {
                width
            }
        })
        .collect(alloc)
}

/// The cells of a row.
fn entries(alloc: Global, lines: &[TableLine], spans: &[RuleSpan]) -> Result<Vec<Cell>>
    requires numbered { AreNumbered lines.now }
    requires order { spec.AreInOrder 0 spans.now }
    ensures { IfOk result (λ cells. cells.items ≡ spec.entries lines.now spans.now) }
{
    let mut cells = Vec::with_capacity(alloc, spans.len())?;
    let mut among = all_places(alloc, lines)?;
    for k in 0..spans.len() {
        let span = span_of(spans, k);
        // A line that ends before one span ends before each later span, too.
        among = reaching(alloc, lines, among, span.from)?;
        // The last span has no end.
        let right = (k + 1 != spans.len()).then_some(span.to);
        let lines = cell_lines(alloc, lines, &among, span.from, right)?;
        cells.push(Cell {
            morerows: 0,
            morecols: span.columns.saturating_sub(1),
            lines,
        })?;
    }
    Ok(cells)
}

impl SimpleLines<'_> {
    /// The lines of a row.
    fn lines_of(&self, row: RowLines) -> &[TableLine]
        ensures { result.now ≡ spec.lines_of_row self.now.lines.now row }
    {
        let end = row.to.min(self.lines.len());
        &self.lines[row.from.min(end)..end]
    }

    /// How many places the longest line of the rows has.
    fn longest_of(&self, rows: &[RowLines]) -> usize
        ensures { result ≡ spec.longest_of self.now.lines.now rows.now }
    {
        rows.iter()
            .flat_map(|row| self.lines_of(*row))
            .map(|line| line.places().len())
            .fold(0, |longest, len| longest.max(len))
    }

    /// The widths of the columns.
    pub(crate) fn widths(&self, rows: &[RowLines]) -> Result<Widths>
        requires { rows.now ≡ spec.simple_rows self.now.unmarked self.now.lines.now }
        ensures { IfOk result (λ widths. widths ≡ spec.simple_widths self.now.unmarked self.now.lines.now) }
    {
        let longest = self.longest_of(rows);
        let widths = column_widths(self.alloc, self.columns, longest)?;
        Ok(Widths { widths })
    }

    /// The cells of all rows, or the fault of the first line with text between the columns of its row.
    pub(crate) fn all_entries(
        &self,
        rows: &[RowLines],
    ) -> Result<std::result::Result<Rows, TableDetail>>
        requires { rows.now ≡ spec.simple_rows self.now.unmarked self.now.lines.now }
        ensures { IfOk result (λ found. MatchResult found (λ all. (spec.margin_fault self.now.unmarked self.now.lines.now ≡ None) × (all ≡ map (spec.row_entries self.now.lines.now) rows.now)) (λ detail. spec.margin_fault self.now.unmarked self.now.lines.now ≡ Some detail)) }
    {
        let mut all = Vec::with_capacity(self.alloc, rows.len())?;
        for row in rows {
            let spans = self.row_spans(*row)?;
            if let Some(k) = self.text_in_margin(&spans, *row) {
                return Ok(Err(TableDetail::Margin { line: k + 1 }));
            }
            let cells = entries(self.alloc, self.lines_of(*row), &spans)?;
            all.push(cells)?;
        }
        Ok(Ok(Rows { rows: all }))
    }
}

/// How many rows end above the border that closes the head.
pub(crate) fn head_size(head: Option<usize>, rows: &[RowLines]) -> usize
    ensures { result ≡ spec.simple_head head rows.now }
{
    match head {
        None => 0,
        Some(border) => rows.iter().filter(|row| row.to <= border).count(),
    }
}
