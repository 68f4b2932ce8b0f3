//! The cells of a grid table.
ghost use Rattle.std.specs.Prelude.{◌≡◌, ◌<◌, ◌≤◌, length, IfOk, IfSome, map, vec_items};
ghost use Rattle.rst_markup_tables.specs.Counts.{below};
ghost use Rattle.rst_markup_tables.specs.Drawn.{IsWithin};
ghost use Rattle.rst_markup_tables.specs.Marks.{AreRanks};
ghost use Rattle.rst_markup_tables.specs.Places.{width};
ghost use Rattle.rst_markup_tables.specs.GridTable as spec;

use super::Result;
use super::bounds::{Tiling, gaps};
use super::cells::{all_places, cell_lines, reaching};
use super::counts::{marked, ranks};
use super::drawn::Rectangle;
use super::results::{Cell, Rows, TableResult, Widths};

/// A tiled grid, and how many bounds come before each row and column and the end.
#[derive(Drop)]
struct Ranks<'a> {
    tiling: Tiling<'a>,
    rows: Vec<usize>,
    columns: Vec<usize>,
    ghost row_ranks: { AreRanks (below (spec.is_row tiling.lines.now tiling.rectangles.now)) (length tiling.lines.now) rows.items },
    ghost column_ranks: { AreRanks (below (spec.is_column tiling.lines.now tiling.rectangles.now)) (width tiling.lines.now) columns.items },
}

impl Ranks<'_> {
    fn row(&self, row: usize) -> usize
        requires { row ≤ length self.now.tiling.lines.now }
        ensures { result ≡ below (spec.is_row self.now.tiling.lines.now self.now.tiling.rectangles.now) row }
    {
        self.rows[row]
    }

    fn column(&self, column: usize) -> usize
        requires { column ≤ width self.now.tiling.lines.now }
        ensures { result ≡ below (spec.is_column self.now.tiling.lines.now self.now.tiling.rectangles.now) column }
    {
        self.columns[column]
    }

    /// How many rows lie above the rule between head and body.
    fn head_size(&self, head: Option<usize>) -> usize
        requires { IfSome head (λ k. k < length self.now.tiling.lines.now) }
        ensures { result ≡ spec.head_size (below (spec.is_row self.now.tiling.lines.now self.now.tiling.rectangles.now)) head }
    {
        match head {
            Some(rule) => self.row(rule),
            None => 0,
        }
    }

    /// The cell in a rectangle.
    fn cell(&self, rectangle: Rectangle) -> Result<Cell>
        requires { IsWithin self.now.tiling.lines.now rectangle }
        ensures { IfOk result (λ cell. cell ≡ spec.cell_of (below (spec.is_row self.now.tiling.lines.now self.now.tiling.rectangles.now)) (below (spec.is_column self.now.tiling.lines.now self.now.tiling.rectangles.now)) self.now.tiling.lines.now rectangle) }
    {
        let alloc = self.tiling.alloc;
        let lines = &self.tiling.lines[rectangle.top + 1..rectangle.bottom];
        let left = rectangle.left + 1;
        let among = reaching(alloc, lines, all_places(alloc, lines)?, left)?;
        let lines = cell_lines(alloc, lines, &among, left, Some(rectangle.right))?;
        let rows = self
            .row(rectangle.bottom)
            .saturating_sub(self.row(rectangle.top));
        let columns = self
            .column(rectangle.right)
            .saturating_sub(self.column(rectangle.left));
        Ok(Cell {
            morerows: rows.saturating_sub(1),
            morecols: columns.saturating_sub(1),
            lines,
        })
    }

    /// Each rectangle's cell in its row.
    fn cell_rows(&self) -> Result<Vec<Vec<Cell>>>
        ensures { IfOk result (λ rows. map vec_items rows.items ≡ spec.table_rows self.now.tiling.lines.now self.now.tiling.rectangles.now) }
    {
        let alloc = self.tiling.alloc;
        let count = self.row(self.tiling.lines.len()).saturating_sub(1);
        let mut rows = Vec::with_capacity(alloc, count)?;
        for _ in 0..count {
            rows.push(Vec::new(alloc))?;
        }
        for rectangle in self.tiling.rectangles {
            let cell = self.cell(*rectangle)?;
            rows[self.row(rectangle.top)].push(cell)?;
        }
        Ok(rows)
    }
}

impl Tiling<'_> {
    /// The table that the tiling makes; `head` is the rule between head and body, `end` the place after the table.
    pub(crate) fn tiled(&self, head: Option<usize>, end: usize) -> Result<TableResult>
        requires { IfSome head (λ k. k < length self.now.lines.now) }
        ensures { IfOk result (λ table. table ≡ spec.tiled_table head self.now.lines.now self.now.rectangles.now end) }
    {
        let (row_bounds, column_bounds) = self.bounds()?;
        let bounds = marked(self.alloc, &column_bounds)?;
        let widths = gaps(self.alloc, &bounds)?;
        let ranks = Ranks {
            tiling: *self,
            rows: ranks(self.alloc, &row_bounds)?,
            columns: ranks(self.alloc, &column_bounds)?,
        };
        let rows = ranks.cell_rows()?;
        Ok(TableResult::Table {
            cols: Widths { widths },
            head: ranks.head_size(head),
            rows: Rows { rows },
            end,
        })
    }
}
