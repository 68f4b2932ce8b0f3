//! A text with inline markup, and its parts as they are written.
ghost use Rattle.std.specs.Prelude.{◌≡◌, ◌<◌, ◌≤◌, length, vec_len, take, true, false, IfOk};
ghost use Rattle.std.specs.Str.{all_scalars, chars, IsAscii};
ghost use Rattle.std.specs.Cow.{cow_str_bytes};
ghost use Rattle.rst_text.specs.Escapes.{has_backslash, unescaped};
ghost use Rattle.rst_inline_scan.specs.Pieces.{IsPieces};
ghost use Rattle.rst_inline.specs.Parts.{content, part, text_bytes, starts_of};

use super::texts::{part, spell};
use super::workspace::Workspace;
use rst_inline_scan::{Piece, pieces_of, pieces_of_ascii};
use rst_settings::Parts;
use rst_text::unescaped;
use std::alloc::{AllocError, Global};
use std::borrow::CowStr;

/// A text with inline markup and the number of its first line, with the allocator for what is made of it.
#[derive(Drop)]
pub(crate) struct Written<'a> {
    pub(crate) alloc: Global,
    pub(crate) line: usize,
    /// The parts of the wider profile that hold in the text.
    pub(crate) parts: &'a Parts,
    text: &'a str,
    pub(crate) characters: Vec<char>,
    /// Where they begin ([`with_starts`]).
    starts: Vec<usize>,
    /// Whether there is a backslash in it.
    escapes: bool,
    ghost text_bytes: { text.now ≡ text_bytes characters.items },
    ghost scalars: { all_scalars characters.items ≡ true },
    ghost ascii: { vec_len starts ≡ 0 → IsAscii characters.items },
    ghost begun: { 0 < vec_len starts → starts.items ≡ starts_of 0 characters.items },
    ghost plain: { escapes ≡ false → has_backslash characters.items ≡ false },
}

/// ASCII as characters, each of which is a byte. They take the place of what is in the list.
fn with_ascii(bytes: &[u8], mut characters: Vec<char>) -> Result<Vec<char>, AllocError>
    ensures { IfOk result (λ characters. characters.items ≡ bytes.now) }
{
    characters.clear();
    characters.reserve(bytes.len())?;
    for byte in bytes {
        characters.push_reserved(char::from(*byte));
    }
    Ok(characters)
}

/// The characters of a text, and the byte at which each of them begins, with the length of the text after them; none where each
/// character is a byte. They take the place of what is in two lists.
fn with_starts(
    text: &str,
    mut characters: Vec<char>,
    mut starts: Vec<usize>,
) -> Result<(Vec<char>, Vec<usize>), AllocError>
    ensures characters { IfOk result (λ made. made.0.items ≡ chars text.now) }
    ensures ascii { IfOk result (λ made. vec_len made.1 ≡ 0 → IsAscii made.0.items) }
    ensures begun { IfOk result (λ made. 0 < vec_len made.1 → made.1.items ≡ starts_of 0 made.0.items) }
{
    starts.clear();
    if text.is_ascii() {
        let characters = with_ascii(text.as_bytes(), characters)?;
        return Ok((characters, starts));
    }
    characters.clear();
    characters.reserve(text.len())?;
    starts.reserve(text.len() + 1)?;
    for (at, c) in text.char_indices() {
        starts.push_reserved(at);
        characters.push_reserved(c);
    }
    starts.push_reserved(text.len());
    Ok((characters, starts))
}

impl<'a> Written<'a> {
    /// A text whose first line has the number `line`.
    pub(crate) fn of(
        alloc: Global,
        parts: &'a Parts,
        text: &'a str,
        line: usize,
        characters: Vec<char>,
        starts: Vec<usize>,
    ) -> Result<Written<'a>, AllocError>
        ensures text { IfOk result (λ written. written.characters.items ≡ chars text.now) }
        ensures line { IfOk result (λ written. written.line ≡ line) }
        ensures parts { IfOk result (λ written. written.parts.now ≡ parts.now) }
    {
        let (characters, starts) = with_starts(text, characters, starts)?;
        let escapes = text.as_bytes().contains(&b'\\');
        Ok(Written {
            alloc,
            line,
            parts,
            text,
            characters,
            starts,
            escapes,
        })
    }

    /// The pieces of the text.
    pub(crate) fn pieces(&self, pieces: Vec<Piece>) -> Result<Vec<Piece>, AllocError>
        ensures { IfOk result (λ pieces. IsPieces self.now.parts.now.mail self.now.parts.now.unmarked self.now.characters.items 0 pieces.items) }
    {
        if self.starts.is_empty() {
            pieces_of_ascii(
                self.parts.mail,
                self.parts.unmarked,
                &self.characters,
                self.text.as_bytes(),
                pieces,
            )
        } else {
            pieces_of(
                self.alloc,
                self.parts.mail,
                self.parts.unmarked,
                &self.characters,
                pieces,
            )
        }
    }

    /// The byte at which the character at a place begins.
    fn byte_at(&self, place: usize) -> usize
        requires { place ≤ length self.now.characters.items }
        ensures { result ≡ length (text_bytes (take place self.now.characters.items)) }
    {
        if self.starts.is_empty() {
            place
        } else {
            self.starts[place]
        }
    }

    /// What is written from a place on, up to another place.
    pub(crate) fn part(&self, low: usize, high: usize) -> &str
        ensures { chars result.now ≡ part self.now.characters.items low high }
    {
        let high = high.min(self.characters.len());
        let low = low.min(high);
        &self.text[self.byte_at(low)..self.byte_at(high)]
    }

    /// The same without its escapes. Most texts have none, and aren't copied for them.
    pub(crate) fn unescaped(
        &self,
        low: usize,
        high: usize,
    ) -> Result<CowStr<'_, Global>, AllocError>
        ensures { IfOk result (λ display_text. chars (cow_str_bytes display_text) ≡ unescaped (part self.now.characters.items low high)) }
    {
        if !self.escapes {
            return Ok(CowStr::Borrowed(self.part(low, high)));
        }
        let plain = unescaped(self.alloc, part(&self.characters, low, high))?;
        Ok(CowStr::Owned(spell(self.alloc, &plain)?))
    }

    /// What the markup of a piece encloses, without its escapes.
    pub(crate) fn unescaped_content(&self, piece: Piece) -> Result<Vec<char>, AllocError>
        ensures { IfOk result (λ text. text.items ≡ unescaped (content self.now.characters.items piece)) }
    {
        let written = part(&self.characters, piece.content_from, piece.content_to);
        unescaped(self.alloc, written)
    }

    /// The lists that are no longer needed, and that of the pieces, for another text.
    #[inline(always)]
    pub(crate) fn into_workspace(self, pieces: Vec<Piece>) -> Workspace {
        let Written {
            characters,
            starts,
            ..
        } = self;
        Workspace {
            characters,
            starts,
            pieces,
        }
    }
}
