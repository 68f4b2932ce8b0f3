//! The blocks that wait for one inside them.
ghost use Rattle.std.specs.Prelude.{◌≡◌, ◌<◌, ◌≤◌, [], ◌∷◌, ◌++◌, length, IfNone, IfSome};
ghost use Rattle.rst_block_state.specs.machine.OpenBlocks.{Gives};

use arrayvec::ArrayVec;
use rst_block_state::{Frame, Result};
use std::alloc::Global;
use std::marker::Model;

/// The blocks that wait for one inside them, the outermost first: each on the heap, so an array for as many as may wait is small.
#[derive(Drop)]
pub(crate) struct Frames {
    places: ArrayVec<Option<Box<Frame>>, 251, Global>,
}

impl Model for Frames {
    ghost use Rattle.std.specs.Prelude.{◌≡◌, List, length};
    ghost use Rattle.std.specs.Coded.{coded_list};
    ghost use Rattle.rst_block_state.specs.declared.frame.Frame.{Frame};
    ghost use Rattle.rst_block_state.specs.contracts.frame.Frame as frame;

    ghost Value = { List Frame };

    ghost coded = { coded_list frame.the_row.coded };

    ghost use Rattle.rst_block.specs.Places.{frames_at};

    ghost view = { λ f. frames_at f.places.items };

    ghost invariant = { λ f. length (frames_at f.places.items) ≡ length f.places.items };
}

impl Frames {
    /// None.
    pub(crate) fn none(alloc: Global) -> Frames
        ensures { result ≡ [] }
    {
        Frames {
            places: ArrayVec::new_in(alloc),
        }
    }

    /// How many they are.
    pub(crate) fn len(&self) -> usize
        ensures { result ≡ length self.now }
    {
        self.places.len()
    }

    /// Adds one after them. There must be room.
    pub(crate) fn push(&mut self, alloc: Global, frame: Frame) -> Result<()>
        requires { length self.old < 251 }
        ensures { Gives (λ _. self.new ≡ self.old ++ frame ∷ []) result }
    {
        self.places.push(Some(Box::new(alloc, frame)?));
        Ok(())
    }

    /// Takes the last, but none of the first `base` ones.
    pub(crate) fn pop(&mut self, base: usize) -> Option<Frame>
        requires { base ≤ length self.old }
        ensures none { IfNone result ((self.new ≡ self.old) × (length self.old ≡ base)) }
        ensures some { IfSome result (λ f. (self.old ≡ self.new ++ f ∷ []) × (base < length self.old)) }
    {
        if self.places.len() == base {
            return None;
        }
        Some(Box::into_inner(self.places.pop()??))
    }
}
