//! Lists that one text after another needs while it is read.

use rst_inline_scan::Piece;
use std::alloc::Global;

/// Lists that a text with markup needs while it is read. They are kept for the next one, which then takes no memory for them. What is in
/// them means nothing.
#[derive(Debug, Drop)]
pub struct Workspace {
    pub(crate) characters: Vec<char>,
    pub(crate) starts: Vec<usize>,
    pub(crate) pieces: Vec<Piece>,
}

impl Workspace {
    /// Lists without room.
    pub fn new(alloc: Global) -> Workspace {
        Workspace {
            characters: Vec::new(alloc),
            starts: Vec::new(alloc),
            pieces: Vec::new(alloc),
        }
    }
}
