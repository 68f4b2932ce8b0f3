//! Texts as they are kept: one after another in one `String`.
ghost use Rattle.std.specs.Prelude.{◌≡◌, ◌+◌, ◌≤◌, ◌<◌, ◌^◌, [], ◌∷◌, ◌++◌, length, slice_index_or, encode_utf8_all, IfOk, IsTrue};
ghost use Rattle.std.specs.Str.{chars};
ghost use Rattle.std.specs.List.{list_all};
ghost use Rattle.rst_settings.specs.Parts.{no_parts};
ghost use Rattle.rst_text.specs.Kept.{AreEmpty, IsEmptyRun};
ghost use Rattle.rst_text.specs.Lines.{numbered_from};
ghost use Rattle.rst_text.specs.MayCut.{is_text};

use std::alloc::{AllocError, Global};
use std::marker::Model;

/// Texts. However many there are, they take two allocations. Contracts see them as a list of characters each.
#[derive(Debug, Drop)]
pub(crate) struct Kept {
    text: String,
    /// The place of each text's first byte, and at last that of the end of all: a text ends where the next begins.
    starts: Vec<usize>,
}

impl Model for Kept {
    ghost use Rattle.std.specs.Prelude.{List, ℕ};

    ghost Value = { List (List ℕ) };

    ghost use Rattle.std.specs.Prelude.{string_bytes};
    ghost use Rattle.rst_text.specs.Kept.{texts_in, AreStarts};

    ghost view = { λ k. texts_in (string_bytes k.text) k.starts.items };

    ghost invariant = { λ k. AreStarts (string_bytes k.text) k.starts.items };
}

impl Kept {
    /// No text, with room for texts of `bytes` bytes.
    pub(crate) fn with_room(alloc: Global, bytes: usize) -> Result<Kept, AllocError>
        ensures { IfOk result (λ kept. kept ≡ []) }
    {
        let text = String::with_capacity(alloc, bytes)?;
        // Few texts have lines of fewer than 12 bytes on average, and room that isn't used is never touched.
        let mut starts = Vec::with_capacity(alloc, bytes / 12 + 4)?;
        starts.push(0)?;
        Ok(Kept { text, starts })
    }

    /// One text more, the last.
    pub(crate) fn push(&mut self, text: &str) -> Result<(), AllocError>
        ensures { IfOk result (λ _. self.new ≡ self.old ++ chars text.now ∷ []) }
    {
        self.starts.push(self.text.len() + text.len())?;
        // Many lines are blank.
        if text.is_empty() {
            return Ok(());
        }
        if let Err(fault) = self.text.push_str(text) {
            self.starts.pop();
            return Err(fault);
        }
        Ok(())
    }

    /// How many texts there are.
    #[tactic(auto, using(crate::proofs::KeptLemmas::length_texts))]
    pub(crate) fn len(&self) -> usize
        ensures value { result ≡ length self.now }
        ensures few { length self.now < 2 ^ 63 }
        ensures texts { IsTrue (list_all is_text self.now) }
    {
        self.starts.len() - 1
    }

    /// The text at place `i`, counted from 0.
    pub(crate) fn text(&self, i: usize) -> &str
        requires { i < length self.now }
        ensures { result.now ≡ encode_utf8_all (slice_index_or self.now i []) }
    {
        &self.text.as_str()[self.starts[i]..self.starts[i + 1]]
    }

    /// Whether the texts from place `i` up to place `end` are empty. `false` means nothing.
    fn are_empty(&self, i: usize, end: usize) -> bool
        requires some { i < end }
        requires within { end ≤ length self.now }
        ensures { IsTrue result → AreEmpty (numbered_from no_parts 0 self.now) i end }
    {
        // The texts are in order, so all are empty if the last ends where the first begins.
        self.starts[i] == self.starts[end]
    }

    /// The place after some empty texts from place `i` on, `to` at most. A long run of them takes few steps: each is
    /// twice the one before, as long as the run goes on, and then half of it.
    pub(crate) fn empty_end(&self, i: usize, to: usize) -> usize
        requires in_order { i ≤ to }
        requires within { to ≤ length self.now }
        requires few { to < 2 ^ 63 }
        ensures { IsEmptyRun (numbered_from no_parts 0 self.now) i to result }
    {
        let mut end = i;
        let mut step = 1;
        while step <= to - end && self.are_empty(i, end + step) {
            end += step;
            step *= 2;
        }
        while step > 1 {
            step /= 2;
            if step <= to - end && self.are_empty(i, end + step) {
                end += step;
            }
        }
        end
    }
}
