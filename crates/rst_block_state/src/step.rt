//! What a step of reading leads to.

use super::waits::Waits;
use rst_markup_blocks::Part;
use rst_markup_tables::TableResult;

/// What a step leads to.
#[derive(Drop)]
pub enum Step {
    /// A block begins, of which nothing was read.
    Begin,
    /// The block goes on.
    Next,
    /// A block inside is read first: these two parts of the view, one after the other.
    Open {
        waits: Waits,
        first: Part,
        second: Option<Part>,
    },
    /// The cells of a table are read first.
    Cells(TableResult),
    /// The block is read.
    Done,
}
