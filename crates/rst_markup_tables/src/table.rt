//! Grid tables.
ghost use Rattle.std.specs.Prelude.{◌≡◌, ◌+◌, ◌^◌, ◌<◌, ◌≤◌, length, drop, IfOk};
ghost use Rattle.rst_markup_blocks.specs.Prelude.{Looked, capped, block_of};
ghost use Rattle.rst_markup_tables.specs.Ends.{end_of};
ghost use Rattle.rst_markup_tables.specs.Places.{AreNumbered};
ghost use Rattle.rst_markup_tables.specs.GridTable as spec;
ghost use Rattle.rst_markup_blocks.specs.TableRows.{grid_size, grid_scan};

use super::Result;
use super::bounds::Tiling;
use super::drawn::tiling;
use super::grid_lines::{GridLines, grid_fault, grid_lines, head_from, put_dashes};
use super::results::{TableDetail, TableFault, TableResult};
use rst_text::{Looks, View};
use std::alloc::Global;

/// `size` lines that are no table, from place `first` on; `line` is the number of the first.
pub(crate) fn malformed(line: usize, first: usize, size: usize, detail: TableDetail) -> TableResult
    requires { first + size < 2 ^ 64 }
    ensures { result ≡ spec.malformed line first size detail }
{
    let end = first + size;
    TableResult::Malformed {
        end,
        note: TableFault {
            line,
            detail,
            first,
            end,
        },
    }
}

/// What the lines of a table are. The first has this number and is at place `first`.
fn grid_of(alloc: Global, line: usize, first: usize, found: GridLines) -> Result<TableResult>
    requires fits { first + length found.lines.items < 2 ^ 64 }
    requires numbered { AreNumbered found.lines.items }
    ensures { IfOk result (spec.IsOfRows line first found.lines.items (spec.grid_fault found.bottom found.lines.items)) }
{
    let mut lines = found.lines;
    let size = lines.len();
    if let Some(detail) = grid_fault(found.bottom, &lines) {
        return Ok(malformed(line, first, size, detail));
    }
    let head = head_from(&lines, 0);
    put_dashes(alloc, &mut lines, head)?;
    let Some(rectangles) = tiling(alloc, &lines)? else {
        return Ok(malformed(line, first, size, TableDetail::ParseIncomplete));
    };
    let tiling = Tiling {
        alloc,
        lines: &lines,
        rectangles: &rectangles,
    };
    let table = tiling.tiled(head, first + size)?;
    Ok(table)
}

/// The grid table whose top border is the line at place `i` of a view: a table with the cells of the tiling by its
/// drawn rectangles, or malformed with its first fault (Markup Specification, 'Grid Tables'). The row of grid tables
/// determines its end. It looks once at each line of the table, and at those after it through the one that stops the scan.
///
/// The only error is that memory ran out, which leaves all but `looks` as it was; looks that were taken stay counted.
pub fn grid(alloc: Global, view: &View<'_>, i: usize, looks: &mut Looks) -> Result<TableResult>
    requires there { i < length (block_of view.now) }
    ensures table { IfOk result (spec.IsGridTable (block_of view.now) i) }
    ensures end { IfOk result (λ table. end_of table ≡ i + grid_size (drop i (block_of view.now))) }
    ensures looked { Looked 0 (grid_scan (drop i (block_of view.now))) looks.old looks.new }
    ensures each { IfOk result (λ _. capped (looks.old + grid_size (drop i (block_of view.now))) ≤ looks.new) }
{
    let found = grid_lines(alloc, view, i, looks)?;
    let table = grid_of(alloc, view.number(i), i, found)?;
    Ok(table)
}
