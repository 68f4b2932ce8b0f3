//! The rectangles that a grid table draws, and the tiling by them.
ghost use Rattle.std.specs.Prelude.{◌≡◌, ◌<◌, true, IfOk, IfSome, option_map, map, vec_items};
ghost use Rattle.rst_markup_tables.specs.Places.{width};
ghost use Rattle.rst_markup_tables.specs.Drawn.{is_upright, is_side, bottom_of, drawn_at, Tiles};
ghost use Rattle.rst_markup_tables.specs.Search.{begins_of, begin_at};

use super::Result;
use super::places::{TableLine, mark, mark_at, width};
use std::alloc::Global;

/// A rectangle, by the places of its corners.
#[derive(Clone, Copy)]
pub(crate) struct Rectangle {
    pub(crate) top: usize,
    pub(crate) left: usize,
    pub(crate) bottom: usize,
    pub(crate) right: usize,
}

#[tactic(auto, unfolding(crate::specs::Drawn::is_upright))]
pub(crate) fn is_upright(c: char) -> bool
    ensures { result ≡ is_upright c }
{
    c == '|' || c == '+'
}

// For each place of the row where the run of `-` and `+` that ends there begins.
fn begins_of(alloc: Global, line: &TableLine) -> Result<Vec<usize>>
    ensures { IfOk result (λ begins. begins.items ≡ begins_of line.now) }
{
    let row = line.places();
    let mut begins = Vec::with_capacity(alloc, row.len())?;
    let mut begin = 0;
    for column in 0..row.len() {
        if mark_at(row, column) != '-' && mark_at(row, column) != '+' {
            begin = column + 1;
        }
        begins.push(begin)?;
    }
    Ok(begins)
}

// The rows of a grid, and for each of their places where the run of `-` and `+` that ends there begins.
#[derive(Drop)]
struct Runs<'a> {
    rows: &'a [TableLine],
    begins: Vec<Vec<usize>>,
    ghost are_begins: { map vec_items begins.items ≡ map begins_of rows.now },
}

impl Runs<'_> {
    // The number at a place of the table of runs.
    #[tactic(auto, unfolding(crate::specs::Search::begin_at))]
    fn begin_at(&self, row: usize, column: usize) -> usize
        ensures { result ≡ begin_at (map vec_items self.now.begins.items) row column }
    {
        match self.begins.get(row) {
            Some(begins) => begins.get(column).copied().unwrap_or(0),
            None => 0,
        }
    }

    // Whether the row has a side from `left` to `right`.
    fn is_side(&self, row: usize, left: usize, right: usize) -> bool
        ensures { result ≡ is_side self.now.rows.now row left right }
    {
        mark(self.rows, row, left) == '+'
            && mark(self.rows, row, right) == '+'
            && self.begin_at(row, right) <= left
    }

    // The least bottom side of a rectangle with these other sides.
    fn bottom(&self, top: usize, left: usize, right: usize) -> Option<usize>
        requires { is_side self.now.rows.now top left right ≡ true }
        ensures { result ≡ bottom_of self.now.rows.now top left right }
    {
        let height = self.rows.len();
        for row in top + 1..height {
            if !is_upright(mark(self.rows, row, left)) || !is_upright(mark(self.rows, row, right)) {
                return None;
            }
            if self.is_side(row, left, right) {
                return Some(row);
            }
        }
        None
    }

    // The rectangle that is drawn from the place.
    fn drawn_from(&self, top: usize, left: usize) -> Option<Rectangle>
        requires { left < width self.now.rows.now }
        ensures value { result ≡ drawn_at self.now.rows.now top left }
        ensures within { IfSome result (λ r. (r.left < r.right) × (r.right < width self.now.rows.now)) }
    {
        let columns = width(self.rows);
        for right in left + 1..columns {
            if !self.is_side(top, left, right) {
                continue;
            }
            if let Some(bottom) = self.bottom(top, left, right) {
                return Some(Rectangle {
                    top,
                    left,
                    bottom,
                    right,
                });
            }
        }
        None
    }
}

/// The rectangles that tile the grid, in reading order, if it is well formed.
pub(crate) fn tiling(alloc: Global, rows: &[TableLine]) -> Result<Option<Vec<Rectangle>>>
    ensures { IfOk result (λ found. Tiles rows.now (option_map vec_items found)) }
{
    let mut begins = Vec::with_capacity(alloc, rows.len())?;
    for line in rows {
        begins.push(begins_of(alloc, line)?)?;
    }
    let runs = Runs { rows, begins };
    let mut rectangles = Vec::new(alloc);
    let columns = width(rows).saturating_sub(1);
    let mut depths = vec![in alloc; 0; columns]?;
    for top in 0..rows.len().saturating_sub(1) {
        for left in 0..depths.len() {
            if depths[left] != top {
                continue;
            }
            let Some(rectangle) = runs.drawn_from(top, left) else {
                return Ok(None);
            };
            // Each of its columns has to be covered down to its top, and is covered down to its bottom then.
            for column in rectangle.left..rectangle.right {
                if depths[column] != rectangle.top {
                    return Ok(None);
                }
                depths[column] = rectangle.bottom;
            }
            rectangles.push(rectangle)?;
        }
    }
    Ok(Some(rectangles))
}
