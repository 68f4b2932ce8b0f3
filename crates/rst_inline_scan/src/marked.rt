//! Inline markup between a start-string and an end-string.
ghost use Rattle.std.specs.Prelude.{◌≡◌, ◌≢◌, ℕ, ◌+◌, ◌<◌, ◌≤◌, true, Some, length, option_map, IfSome, slice_index};
ghost use Rattle.std.specs.Option.{is_some};
ghost use Rattle.rst_inline_scan.specs.Marked.{start_len, end_len, mark, has_start, start_of, starts, tail_of, ends, markup_end, marked};
ghost use Rattle.rst_text.specs.Escapes.{is_escaped};
ghost use Rattle.rst_inline_scan.specs.Missing.{IsMissing};

use super::characters::is_free_after;
use super::missing::Missing;
use super::names::role_end;
use super::piece::{Kind, Markup, Piece, Suffix, Tail};
use super::tails::name_tail;
use rst_text::{escapes, has, is_dark};

/// The least place from `from` on that holds the mark or a backslash, or the text's end.
// Not inlined: its callers need all registers, and its loop would run in memory.
#[inline(never)]
fn next_mark(text: &[char], from: usize, mark: char) -> usize
    requires { from ≤ length text.now }
    ensures above { from ≤ result }
    ensures within { result ≤ length text.now }
    ensures unmarked { (k : ℕ) → from ≤ k → k < result → slice_index text.now k ≢ mark }
    ensures bare { (k : ℕ) → from ≤ k → k < result → slice_index text.now k ≢ 92 }
{
    for at in from..text.len() {
        if text[at] == mark || text[at] == '\\' {
            return at;
        }
    }
    text.len()
}

impl Markup {
    /// How many characters the start-string has.
    fn start_len(self) -> usize
        ensures { result ≡ start_len self }
    {
        match self {
            Markup::Strong | Markup::Literal | Markup::Target => 2,
            Markup::Emphasis | Markup::Substitution | Markup::Interpreted => 1,
        }
    }

    /// How many characters the end-string has.
    fn end_len(self) -> usize
        ensures { result ≡ end_len self }
    {
        match self {
            Markup::Strong | Markup::Literal => 2,
            Markup::Emphasis | Markup::Target | Markup::Substitution | Markup::Interpreted => 1,
        }
    }

    /// Whether the start-string is at the place.
    fn has_start(self, text: &[char], place: usize) -> bool
        requires { place ≤ length text.now }
        ensures { result ≡ has_start self text.now place }
    {
        match self {
            Markup::Strong => has(text, place, '*') && has(text, place + 1, '*'),
            Markup::Emphasis => has(text, place, '*') && !has(text, place + 1, '*'),
            Markup::Literal => has(text, place, '`') && has(text, place + 1, '`'),
            Markup::Target => has(text, place, '_') && has(text, place + 1, '`'),
            Markup::Substitution => has(text, place, '|') && !has(text, place + 1, '|'),
            Markup::Interpreted => has(text, place, '`') && !has(text, place + 1, '`'),
        }
    }

    /// The character of which the end-string consists.
    fn mark(self) -> char
        ensures { result ≡ mark self }
    {
        match self {
            Markup::Strong | Markup::Emphasis => '*',
            Markup::Literal | Markup::Target | Markup::Interpreted => '`',
            Markup::Substitution => '|',
        }
    }

    /// Where the start-string of markup that begins at the place is.
    #[tactic(auto, unfolding(crate::specs::Marked::start_of, crate::specs::Names::role_end))]
    fn start(self, text: &[char], place: usize) -> usize
        requires { place < length text.now }
        ensures exact { result ≡ start_of self text.now place }
        ensures order { place ≤ result }
        ensures below { result ≤ length text.now }
    {
        match self {
            Markup::Interpreted if text[place] == ':' => match role_end(text, place) {
                Some(end) => end,
                None => place,
            },
            _ => place,
        }
    }

    /// Whether the markup begins at `place` with its start-string at `start`, where what precedes allows it.
    #[tactic(auto, unfolding(crate::specs::Marked::starts, crate::specs::Characters::is_pair))]
    fn starts(self, text: &[char], place: usize, start: usize) -> bool
        requires order { place ≤ start }
        requires below { start ≤ length text.now }
        ensures { result ≡ starts self text.now place start }
    {
        let after_start = start + self.start_len();
        self.has_start(text, start)
            && is_dark(text, after_start)
            && (place == 0
                || !matches!(
                    (text[place - 1], text[after_start]),
                    ('\'', '\'') | ('"', '"') | ('<', '>') | ('(', ')') | ('[', ']') | ('{', '}')
                ))
    }

    /// What follows the end-string at the place, the first that fits.
    #[tactic(auto, unfolding(crate::specs::Marked::tail_of))]
    fn tail(self, text: &[char], place: usize) -> Option<Tail>
        requires { place < length text.now }
        ensures { result ≡ tail_of self text.now place }
    {
        if let Markup::Substitution | Markup::Interpreted = self {
            if let Some(tail) = name_tail(text, place + 1) {
                return Some(tail);
            }
        }
        if let Markup::Interpreted = self {
            if let Some(end) = role_end(text, place + 1) {
                if is_free_after(text, end) {
                    return Some(Tail {
                        suffix: Suffix::Role,
                        to: end,
                    });
                }
            }
        }
        let to = place + self.end_len();
        if is_free_after(text, to) {
            Some(Tail {
                suffix: Suffix::Bare,
                to,
            })
        } else {
            None
        }
    }

    /// What follows the end-string at the place, which is escaped or not, if it may end the markup.
    #[tactic(auto, unfolding(crate::specs::Marked::ends))]
    fn ending(self, text: &[char], place: usize, escaped: bool) -> Option<Tail>
        requires above { 0 < place }
        requires below { place < length text.now }
        ensures ends { (from : ℕ) → escaped ≡ is_escaped text.now from place → is_some result ≡ ends self text.now from place }
        ensures tail { IfSome result (λ tail. tail_of self text.now place ≡ Some tail) }
    {
        if !has(text, place, self.mark())
            || (self.end_len() == 2 && !has(text, place + 1, self.mark()))
            || !is_dark(text, place - 1)
            || (escaped && !matches!(self, Markup::Literal))
        {
            return None;
        }
        self.tail(text, place)
    }

    /// The least end of the markup that begins at `place` with its start-string at `start`, and what follows that.
    pub(crate) fn end(self, text: &[char], place: usize, start: usize) -> Option<(usize, Tail)>
        requires mark { has_start self text.now start ≡ true }
        requires order { place ≤ start }
        requires below { start ≤ length text.now }
        ensures exact { option_map (λ found. found.0) result ≡ markup_end self text.now place start }
        ensures tail { IfSome result (λ found. tail_of self text.now found.0 ≡ Some found.1) }
    {
        let mark = self.mark();
        let open = start + self.start_len();
        let mut escaped = false;
        let mut at = next_mark(text, start + 1, mark);
        while at < text.len() {
            if text[at] == mark && open < at {
                if let Some(tail) = self.ending(text, at, escaped) {
                    return Some((at, tail));
                }
            }
            let escapes_next = escapes(text[at], escaped);
            let next = next_mark(text, at + 1, mark);
            escaped = escapes_next & (at + 1 == next);
            at = next;
        }
        None
    }

    /// The piece that the markup gives at the place, if it begins there.
    #[tactic(auto, unfolding(crate::specs::Marked::marked))]
    pub(crate) fn piece(self, text: &[char], place: usize, missing: &mut Missing) -> Option<Piece>
        requires place { place < length text.now }
        requires known { IsMissing text.now missing.old place }
        ensures exact { result ≡ marked self text.now place }
        ensures known { IsMissing text.now missing.new place }
    {
        let start = self.start(text, place);
        if !self.starts(text, place, start) {
            return None;
        }
        let content_from = start + self.start_len();
        Some(match missing.end(self, text, place, start) {
            Some((end, tail)) => Piece {
                kind: Kind::Marked(self, tail.suffix),
                from: place,
                content_from,
                content_to: end,
                to: tail.to,
            },
            // The start-string alone, with the role before it.
            None => Piece {
                kind: Kind::Unended(self),
                from: place,
                content_from,
                content_to: content_from,
                to: content_from,
            },
        })
    }
}
