//! What searches before a place have found to be absent after it, so that no text is searched twice in vain.
ghost use Rattle.std.specs.Prelude.{◌≡◌, ◌<◌, ◌≤◌, true, Some, length, option_map, IfSome};
ghost use Rattle.rst_inline_scan.specs.Marked.{has_start, markup_end, tail_of};
ghost use Rattle.rst_inline_scan.specs.Names.{name_end};
ghost use Rattle.rst_inline_scan.specs.Uri.{uri_end};
ghost use Rattle.rst_inline_scan.specs.Missing.{IsMissing};

use super::names::name_end;
use super::piece::{Markup, Tail};
use super::uri::uri_end;

/// What is absent after a place.
#[derive(Clone, Copy)]
pub(crate) struct Missing {
    // For each kind of markup the place from which on no start-string of it has an end.
    unended: [usize; 6],
    // Below these places no reference by name and no URI begins.
    names: usize,
    uris: usize,
}

impl Missing {
    /// Nothing is known to be absent from the text.
    pub(crate) fn of(text: &[char]) -> Missing
        ensures { IsMissing text.now result 0 }
    {
        Missing {
            unended: [text.len(); 6],
            names: 0,
            uris: 0,
        }
    }

    /// The least end of the markup that begins at `place` with its start-string at `start`, and what follows that.
    pub(crate) fn end(
        &mut self,
        markup: Markup,
        text: &[char],
        place: usize,
        start: usize,
    ) -> Option<(usize, Tail)>
        requires mark { has_start markup text.now start ≡ true }
        requires order { place ≤ start }
        requires below { start ≤ length text.now }
        requires known { IsMissing text.now self.old place }
        ensures exact { option_map (λ found. found.0) result ≡ markup_end markup text.now place start }
        ensures tail { IfSome result (λ found. tail_of markup text.now found.0 ≡ Some found.1) }
        ensures known { IsMissing text.now self.new place }
    {
        if self.unended[markup as usize] <= start {
            return None;
        }
        let found = markup.end(text, place, start);
        if let None = found {
            self.unended[markup as usize] = start;
        }
        found
    }

    /// The greatest end of the name of a reference that begins at the place.
    pub(crate) fn name_end(&mut self, text: &[char], start: usize) -> Option<usize>
        requires place { start < length text.now }
        requires known { IsMissing text.now self.old start }
        ensures exact { result ≡ name_end text.now start }
        ensures within { IfSome result (λ end. end < length text.now) }
        ensures known { IsMissing text.now self.new start }
    {
        if start < self.names {
            return None;
        }
        let (found, reach) = name_end(text, start);
        if let None = found {
            self.names = reach;
        }
        found
    }

    /// The end of the URI that begins at the place.
    pub(crate) fn uri_end(&mut self, text: &[char], start: usize) -> Option<usize>
        requires place { start < length text.now }
        requires known { IsMissing text.now self.old start }
        ensures exact { result ≡ uri_end text.now start }
        ensures known { IsMissing text.now self.new start }
    {
        if start < self.uris {
            return None;
        }
        let (found, reach) = uri_end(text, start);
        if let None = found {
            self.uris = reach;
        }
        found
    }
}
