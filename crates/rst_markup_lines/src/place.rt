//! Places of characters.

/// Neighbouring characters of a line: those at places `from` to `to - 1`, counted from 0.
#[derive(Clone, Copy, Debug, PartialEq, Eq)]
pub struct Characters {
    pub from: usize,
    pub to: usize,
}
