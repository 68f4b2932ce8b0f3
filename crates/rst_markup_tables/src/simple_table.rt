//! Simple tables.
ghost use Rattle.std.specs.Prelude.{◌≡◌, ◌+◌, ◌-◌, ◌*◌, ◌^◌, ◌<◌, drop, length, IfOk};
ghost use Rattle.rst_markup_blocks.specs.Prelude.{Looked, block_of};
ghost use Rattle.rst_markup_tables.specs.Ends.{end_of};
ghost use Rattle.rst_markup_tables.specs.Places.{AreNumbered};
ghost use Rattle.rst_markup_tables.specs.SimpleTable as spec;
ghost use Rattle.rst_markup_blocks.specs.TableRows.{simple_size, simple_scan};

use super::Result;
use super::places::{TableLine, row_at};
use super::results::{TableDetail, TableResult};
use super::simple_cells::head_size;
use super::simple_lines::{border_fault, read_lines};
use super::simple_rows::{SimpleLines, rules_of};
use super::spans::spans_of;
use super::table::malformed;
use rst_markup_blocks::simple_borders;
use rst_text::{Looks, View};
use std::alloc::Global;

/// What the lines of a table are. The first has this number and is at place `first`; the line at place `head` of the
/// table closes its head.
fn simple_of(
    alloc: Global,
    unmarked: bool,
    line: usize,
    first: usize,
    head: Option<usize>,
    lines: &[TableLine],
) -> Result<TableResult>
    requires fits { first + length lines.now < 2 ^ 64 }
    requires numbered { AreNumbered lines.now }
    ensures { IfOk result (λ table. table ≡ spec.simple_by unmarked line first head lines.now (spec.lines_fault unmarked lines.now)) }
{
    let size = lines.len();
    let columns = spans_of(alloc, row_at(lines, 0))?;
    let table = SimpleLines {
        alloc,
        lines,
        columns: &columns,
        unmarked,
    };
    let rules = rules_of(alloc, lines)?;
    for rule in &rules {
        if table.rule_spans(*rule)?.is_none() {
            let detail = TableDetail::ColumnSpan { line: *rule + 1 };
            return Ok(malformed(line, first, size, detail));
        }
    }
    let rows = table.rows(&rules)?;
    match table.all_entries(&rows)? {
        Ok(cells) => Ok(TableResult::Table {
            cols: table.widths(&rows)?,
            head: head_size(head, &rows),
            rows: cells,
            end: first + size,
        }),
        Err(detail) => Ok(malformed(line, first, size, detail)),
    }
}

/// The simple table whose top border is the line at place `i` of a view: a table with its rows, or malformed with its
/// first fault (Markup Specification, 'Simple Tables'). The row of simple tables determines its end. It looks at most four
/// times at each line of the table, and of those after it through the one that stops the scan for a border; and at least once at
/// each line of the table below the first.
///
/// The only error is that memory runs out, which leaves all but `looks` as it was.
pub fn simple(alloc: Global, view: &View<'_>, i: usize, looks: &mut Looks) -> Result<TableResult>
    requires there { i < length (block_of view.now) }
    ensures table { IfOk result (λ table. table ≡ spec.simple_table (block_of view.now) i) }
    ensures end { IfOk result (λ table. end_of table ≡ i + simple_size (drop i (block_of view.now))) }
    ensures looked { Looked (simple_size (drop i (block_of view.now)) - 1) (4 * simple_scan (drop i (block_of view.now))) looks.old looks.new }
{
    prove!(i < view.len());
    let line = view.number(i);
    let borders = simple_borders(view, i, looks);
    let size = borders.size(view.len() - i);
    if let Some(detail) = border_fault(view, i, borders.bottom, looks) {
        return Ok(malformed(line, i, size, detail));
    }
    let lines = read_lines(alloc, view, i, i + size, looks)?;
    let unmarked = view.parts(i).unmarked;
    let table = simple_of(alloc, unmarked, line, i, borders.head, &lines)?;
    Ok(table)
}
