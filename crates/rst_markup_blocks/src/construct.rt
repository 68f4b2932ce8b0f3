//! A construct: where it begins, and where it ends.
ghost use Rattle.std.specs.Prelude.{◌≡◌, ◌+◌, ◌*◌, ◌<◌, ℕ, Bool, drop, length, IsTrue};
ghost use Rattle.rst_markup_blocks.specs.Prelude.{Block, Looked, block_of};

use rst_text::{Looks, View};

/// A row of the table of constructs. `titles` is true if titles are allowed in the block.
pub trait Construct {
    /// Whether the row's condition holds on the first lines of a block.
    ghost holds: { Self → Block → Bool };

    /// How many lines the construct at the front of a block has.
    ghost size: { Self → Bool → Block → ℕ };

    /// How many lines its reach has: at least those of the construct, and those that have to be looked at to find where
    /// it ends.
    ghost reached: { Self → Bool → Block → ℕ };

    /// How many looks show whether the row's condition holds: one, or those at the lines below as well that it is on.
    ghost first_looks: { Self → ℕ };

    /// Whether the row's condition holds at place `i`.
    fn starts(&self, view: &View<'_>, i: usize, titles: bool, looks: &mut Looks) -> bool
        requires inside { i < length (block_of view.now) }
        ensures holds { result ≡ holds self.now (drop i (block_of view.now)) }
        ensures looked { Looked 1 (first_looks self.now) looks.old looks.new };

    /// The place after the construct that begins at place `i`. It makes at most four looks for each line of the
    /// construct's reach.
    fn end(&self, view: &View<'_>, i: usize, titles: bool, looks: &mut Looks) -> usize
        requires inside { i < length (block_of view.now) }
        requires begins { IsTrue (holds self.now (drop i (block_of view.now))) }
        ensures end { result ≡ i + size self.now titles (drop i (block_of view.now)) }
        ensures looked { Looked 0 (4 * reached self.now titles (drop i (block_of view.now))) looks.old looks.new };
}
