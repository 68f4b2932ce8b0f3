//! The bounds of a grid's columns and rows.
ghost use Rattle.std.specs.Prelude.{◌≡◌, ◌-◌, ◌<◌, length, All, IfOk};
ghost use Rattle.rst_markup_tables.specs.Counts.{below};
ghost use Rattle.rst_markup_tables.specs.Places.{AreNumbered, width};
ghost use Rattle.rst_markup_tables.specs.Marks.{Marks, AreMarked};
ghost use Rattle.rst_markup_tables.specs.Drawn.{IsWithin};
ghost use Rattle.rst_markup_tables.specs.GridTable.{bounds_column, bounds_row, gaps, is_column, is_row};

use super::Result;
use super::drawn::Rectangle;
use super::places::{TableLine, mark, width};
use std::alloc::Global;

/// Marks the columns in which a `+` of the rectangle's top or bottom side is.
#[tactic(auto, unfolding(crate::specs::GridTable::bounds_column))]
fn mark_columns(marks: &mut [bool], lines: &[TableLine], rectangle: Rectangle)
    requires rectangle { IsWithin lines.now rectangle }
    requires size { length marks.old ≡ width lines.now }
    ensures { Marks (λ k. bounds_column lines.now k rectangle) marks.old marks.new }
{
    for column in rectangle.left..rectangle.right + 1 {
        if mark(lines, rectangle.top, column) == '+'
            || mark(lines, rectangle.bottom, column) == '+'
        {
            marks[column] = true;
            continue;
        }
    }
}

/// Marks the rows in which a `+` of the rectangle's left or right side is.
#[tactic(auto, unfolding(crate::specs::GridTable::bounds_row))]
fn mark_rows(marks: &mut [bool], lines: &[TableLine], rectangle: Rectangle)
    requires rectangle { IsWithin lines.now rectangle }
    requires size { length marks.old ≡ length lines.now }
    ensures { Marks (λ k. bounds_row lines.now k rectangle) marks.old marks.new }
{
    for row in rectangle.top..rectangle.bottom + 1 {
        if mark(lines, row, rectangle.left) == '+' || mark(lines, row, rectangle.right) == '+' {
            marks[row] = true;
            continue;
        }
    }
}

/// The lines of a grid, and the rectangles that tile it.
#[derive(Clone, Copy)]
pub(crate) struct Tiling<'a> {
    pub(crate) alloc: Global,
    pub(crate) lines: &'a [TableLine],
    pub(crate) rectangles: &'a [Rectangle],
    ghost numbered: { AreNumbered lines.now },
    ghost within: { All (IsWithin lines.now) rectangles.now },
    ghost in_rows: { All (λ r. below (is_row lines.now rectangles.now) r.top < below (is_row lines.now rectangles.now) (length lines.now) - 1) rectangles.now },
}

impl Tiling<'_> {
    /// Which rows are bounds of rows, and which places of a row are bounds of columns.
    pub(crate) fn bounds(&self) -> Result<(Vec<bool>, Vec<bool>)>
        ensures rows { IfOk result (λ marks. AreMarked (is_row self.now.lines.now self.now.rectangles.now) (length self.now.lines.now) marks.0.items) }
        ensures columns { IfOk result (λ marks. AreMarked (is_column self.now.lines.now self.now.rectangles.now) (width self.now.lines.now) marks.1.items) }
    {
        let mut rows = vec![in self.alloc; false; self.lines.len()]?;
        let mut columns = vec![in self.alloc; false; width(self.lines)]?;
        for rectangle in self.rectangles {
            mark_rows(&mut rows, self.lines, *rectangle);
            mark_columns(&mut columns, self.lines, *rectangle);
        }
        Ok((rows, columns))
    }
}

/// How many places lie between neighbouring bounds.
pub(crate) fn gaps(alloc: Global, bounds: &[usize]) -> Result<Vec<usize>>
    ensures { IfOk result (λ found. found.items ≡ gaps bounds.now) }
{
    let neighbours = bounds.iter().zip(bounds.iter().skip(1));
    neighbours
        .map(|(low, high)| high.saturating_sub(*low).saturating_sub(1))
        .collect(alloc)
}
