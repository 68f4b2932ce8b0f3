//! The lines of a text.
ghost use Rattle.std.specs.Prelude.{◌≡◌, ◌+◌, ◌-◌, ◌/◌, ◌≤◌, ◌<◌, ◌^◌, ◌∷◌, ℕ, nat_lt, length, drop, IfOk, IsTrue};
ghost use Rattle.std.specs.Str.{chars, IsUtf8};
ghost use Rattle.rst_text.specs.Block.{first_text, first_number, first_parts};
ghost use Rattle.rst_text.specs.Faults.{AreWithin};
ghost use Rattle.rst_text.specs.Kept.{IsEmptyRun};
ghost use Rattle.rst_text.specs.Lines.{is_line_end, pieces, line_character, expanded, lines_of};
ghost use Rattle.rst_text.specs.Ordinary.{AreOrdinary};
ghost use Rattle.rst_text.specs.Source.{texts_with, spread, ArePlaced};
ghost use Rattle.rst_text.specs.Text.{chars_of};

use super::fault::LineFault;
use super::kept::Kept;
use super::ordinary::ordinary_len;
use rst_settings::Parts;
use std::alloc::{AllocError, Global};
use std::marker::Model;

/// Lines with their numbers, which follow one another: no character of a line ends one, and none is white at a line's
/// end. Contracts see them as a block: each line has its number, its characters and the parts of the wider profile that hold
/// in it, which are the same for all.
#[derive(Debug, Drop)]
pub struct Lines {
    kept: Kept,
    first: usize,
    pub(crate) count: usize,
    // The places of the lines whose texts are kept, if not all are: the others are empty.
    places: Option<Vec<usize>>,
    // The parts of the wider profile that hold in each line.
    parts: Parts,
}

impl Model for Lines {
    ghost use Rattle.rst_text.specs.Block.{Block};

    ghost Value = { Block };

    ghost use Rattle.rst_text.specs.Source.{kept_lines, HoldsLines};

    ghost view = { λ l. kept_lines l.parts l.first l.count l.kept l.places };

    ghost invariant = { λ l. HoldsLines l.parts l.first l.count l.kept l.places };
}

impl Lines {
    /// The lines of a text: cut at its line ends and numbered from 1, in each the tabs expanded to the next multiple
    /// of `tab` columns, form feeds and vertical tabs made spaces and the white characters at its end dropped (Markup
    /// Specification, 'Whitespace'; Configuration, `tab_width`). These parts of the wider profile hold in each.
    ///
    /// The only refusal is [`AllocError`].
    pub fn of(alloc: Global, text: &str, tab: u8, parts: Parts) -> Result<Lines, AllocError>
        requires from { 1 ≤ tab }
        requires to { tab ≤ 99 }
        ensures { IfOk result (λ lines. lines ≡ lines_of parts tab (chars text.now)) }
    {
        // A line with more characters than can be counted would need more memory than there is.
        match Lines::within(alloc, text, tab, usize::MAX, parts) {
            Ok(lines) => Ok(lines),
            Err(_) => Err(AllocError),
        }
    }

    /// The lines of a text, if none of them has more than `limit` characters (Configuration, `line_length_limit`). A
    /// line is measured before its tabs are expanded: a tab that is counted takes no memory, an expanded one does.
    /// These parts of the wider profile hold in each.
    ///
    /// The refusals are [`LineFault::TooLong`], of the first line that is too long, and [`LineFault::NoMemory`].
    pub fn within(
        alloc: Global,
        text: &str,
        tab: u8,
        limit: usize,
        parts: Parts,
    ) -> Result<Lines, LineFault>
        requires from { 1 ≤ tab }
        requires to { tab ≤ 99 }
        ensures { AreWithin parts limit tab (chars text.now) result }
    {
        // Only a tab makes a line longer than it is in the text, so this room is seldom too small.
        let mut kept = Kept::with_room(alloc, text.len())?;
        let tab = usize::from(tab);
        let most = limit / tab;
        let mut rest = text;
        while !rest.is_empty() {
            let (piece, after, ordinary) = first_piece(rest);
            let piece = piece.trim_end();
            if is_longer(piece, tab, limit, most) {
                return Err(LineFault::TooLong {
                    line: kept.len() + 1,
                });
            }
            if ordinary {
                kept.push(piece)?;
            } else {
                kept.push(expand(alloc, piece, tab)?.as_str())?;
            }
            rest = after;
        }
        let count = kept.len();
        Ok(Lines {
            kept,
            first: 1,
            count,
            places: None,
            parts,
        })
    }

    /// `count` lines, numbered from `first` on. These parts of the wider profile hold in each. They are empty but for these
    /// texts, which are given with their places, counted from 0. The places rise and are below `count`; no character of
    /// a text ends a line, and its last isn't white. A line that is given no text takes no memory.
    ///
    /// The only refusal is [`AllocError`].
    pub fn numbered(
        alloc: Global,
        parts: Parts,
        first: usize,
        count: usize,
        texts: &[(usize, String)],
    ) -> Result<Lines, AllocError>
        requires placed { ArePlaced 0 count (texts_with texts.now) }
        requires few { count < 2 ^ 63 }
        requires numbers { first + count ≤ 2 ^ 64 }
        ensures { IfOk result (λ made. made ≡ spread parts first count (texts_with texts.now)) }
    {
        let mut kept = Kept::with_room(alloc, 0)?;
        let mut places = Vec::new(alloc);
        for (place, text) in texts {
            kept.push(text.as_str())?;
            places.push(*place)?;
        }
        Ok(Lines {
            kept,
            first,
            count,
            places: Some(places),
            parts,
        })
    }

    /// How many lines there are.
    pub fn count(&self) -> usize
        ensures { result ≡ length self.now }
    {
        self.count
    }

    /// The text of the line at place `i`, counted from 0.
    pub fn line(&self, i: usize) -> &str
        requires { i < length self.now }
        ensures { chars result.now ≡ first_text (drop i self.now) }
    {
        match &self.places {
            None => self.kept.text(i),
            Some(places) => match places.as_slice().binary_search(&i) {
                Ok(index) => self.kept.text(index),
                Err(_) => "",
            },
        }
    }

    /// The number of the line at place `i`, counted from 0.
    pub(crate) fn number(&self, i: usize) -> usize
        requires { i < length self.now }
        ensures { (k : ℕ) → k ≤ i → result ≡ first_number (drop k self.now) + (i - k) }
    {
        self.first + i
    }

    /// The parts of the wider profile that hold in each line.
    pub(crate) fn parts(&self) -> &Parts
        ensures { (k : ℕ) → k < length self.now → result.now ≡ first_parts (drop k self.now) }
    {
        &self.parts
    }

    /// The place after some empty lines from place `i` on, `to` at most.
    pub(crate) fn empty_end(&self, i: usize, to: usize) -> usize
        requires in_order { i ≤ to }
        requires within { to ≤ length self.now }
        ensures { IsEmptyRun self.now i to result }
    {
        match &self.places {
            None => self.kept.empty_end(i, to),
            Some(places) => match places.as_slice().binary_search(&i) {
                Ok(_) => i,
                Err(next) if next < places.len() => to.min(places[next]),
                Err(_) => to,
            },
        }
    }
}

/// Whether a character ends a line: LF, CR, U+001C to U+001E, U+0085, U+2028 and U+2029 do.
pub fn is_line_end(c: char) -> bool
    ensures { result ≡ is_line_end c }
{
    matches!(
        c,
        '\n' | '\r' | '\u{1C}'..='\u{1E}' | '\u{85}' | '\u{2028}' | '\u{2029}'
    )
}

/// The first piece of a text that isn't empty, what follows the end of that line, and whether the bytes of the piece are ordinary.
/// `false` means nothing.
fn first_piece(text: &str) -> (&str, &str, bool)
    requires { 0 < length text.now }
    ensures pieces { pieces (chars text.now) ≡ chars result.0.now ∷ pieces (chars result.1.now) }
    ensures shorter { length result.1.now < length text.now }
    ensures text { IsUtf8 result.0.now × IsUtf8 result.1.now }
    ensures ordinary { IsTrue result.2 → AreOrdinary result.0.now }
{
    let (ordinary, special) = text.split_at(ordinary_len(text));
    if let Some(after) = special.strip_prefix('\n') {
        return (ordinary, after, true);
    }
    let mut left = special;
    'left: loop {
        let (_, special) = left.split_at(ordinary_len(left));
        let mut rest = special.chars();
        let Some(c) = rest.next() else {
            return (text, "", false);
        };
        let after = rest.as_str();
        if is_line_end(c) {
            let (piece, _) = text.split_at(text.len() - after.len() - c.len_utf8());
            if c == '\r' {
                return (piece, after.strip_prefix('\n').unwrap_or(after), false);
            }
            return (piece, after, false);
        }
        left = after;
    }
}

/// Whether a piece has more than `limit` characters once its tabs are expanded. At most `most` bytes never have.
fn is_longer(piece: &str, tab: usize, limit: usize, most: usize) -> bool
    requires some { 1 ≤ tab }
    requires most { most ≡ limit / tab }
    ensures { result ≡ nat_lt limit (length (expanded tab (chars piece.now))) }
{
    // A byte gives `tab` characters at most.
    if piece.len() <= most {
        return false;
    }
    let mut column = 0usize;
    for c in piece.chars() {
        let wide = if c == '\t' { tab - column % tab } else { 1 };
        if wide > limit - column {
            return true;
        }
        column += wide;
    }
    false
}

/// A piece with its tabs expanded.
fn expand(alloc: Global, piece: &str, tab: usize) -> Result<String, AllocError>
    requires from { 1 ≤ tab }
    requires to { tab ≤ 99 }
    ensures { IfOk result (λ line. chars_of line ≡ expanded tab (chars piece.now)) }
{
    // Few lines have more than two tabs.
    let mut line = String::with_capacity(alloc, piece.len().saturating_add(2 * tab))?;
    let mut column = 0usize;
    let mut left = piece;
    'left: loop {
        let (run, special) = left.split_at(ordinary_len(left));
        line.push_str(run)?;
        let mut rest = special.chars();
        let Some(c) = rest.next() else {
            return Ok(line);
        };
        left = rest.as_str();
        column += run.chars().count();
        if c == '\t' {
            let wide = tab - column % tab;
            for _ in 0..wide {
                line.push(' ')?;
            }
            column += wide;
        } else {
            line.push(plain(c))?;
            column += 1;
        }
    }
}

/// A character as it appears in a line: form feed and vertical tab are a space.
fn plain(c: char) -> char
    ensures { result ≡ line_character c }
{
    match c {
        '\u{B}' | '\u{C}' => ' ',
        _ => c,
    }
}
