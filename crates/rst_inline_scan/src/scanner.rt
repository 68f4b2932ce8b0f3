//! The scanner.
ghost use Rattle.std.specs.Prelude.{◌≡◌, ℕ, ◌<◌, ◌≤◌, ◌++◌, true, false, length, IfOk};
ghost use Rattle.rst_inline_scan.specs.Calm.{AreBytesOf};
ghost use Rattle.rst_text.specs.Escapes.{is_escaped};
ghost use Rattle.rst_inline_scan.specs.Marked.{markup_of};
ghost use Rattle.rst_inline_scan.specs.Pieces.{unlinked_at, markup_at, marked_or_registered, piece_at, IsPieces};
ghost use Rattle.rst_inline_scan.specs.Reading.{plain_if};
ghost use Rattle.rst_inline_scan.specs.Missing.{HasNoAddress, IsMissing};
ghost use Rattle.rst_inline_scan.specs.Quiet.{may_hold_links};
ghost use Rattle.rst_inline_scan.specs.Words.{IsWord};

use super::calm::step;
use super::characters::may_precede_start;
use super::footnotes::label;
use super::mail::address;
use super::missing::Missing;
use super::names::reference;
use super::piece::{Kind, Markup, Piece};
use super::registered::registered_uri;
use super::uri::uri;
use super::words::{goes_on, word_end};
use rst_text::{escapes, has};
use std::alloc::{AllocError, Global};

/// The only markup that may begin at the place.
#[tactic(auto, unfolding(crate::specs::Marked::markup_of))]
fn markup_of(text: &[char], place: usize) -> Option<Markup>
    requires { place < length text.now }
    ensures { result ≡ markup_of text.now place }
{
    match text[place] {
        '*' if has(text, place + 1, '*') => Some(Markup::Strong),
        '*' => Some(Markup::Emphasis),
        '`' if has(text, place + 1, '`') => Some(Markup::Literal),
        '`' | ':' => Some(Markup::Interpreted),
        '_' if has(text, place + 1, '`') => Some(Markup::Target),
        '|' => Some(Markup::Substitution),
        _ => None,
    }
}

/// The piece that the first kind of markup gives that holds at the place, standalone hyperlinks apart.
#[tactic(auto, unfolding(crate::specs::Pieces::unlinked_at))]
#[inline(always)]
fn unlinked_at(text: &[char], place: usize, missing: &mut Missing) -> Option<Piece>
    requires place { place < length text.now }
    requires known { IsMissing text.now missing.old place }
    ensures exact { result ≡ unlinked_at text.now place }
    ensures known { IsMissing text.now missing.new place }
{
    if let Some(markup) = markup_of(text, place) {
        if let Some(piece) = markup.piece(text, place, missing) {
            return Some(piece);
        }
    }
    if let Some(piece) = label(text, place) {
        return Some(piece);
    }
    reference(text, place, missing)
}

/// The same with the URIs of the base.
#[tactic(auto, unfolding(crate::specs::Pieces::markup_at))]
fn markup_at(text: &[char], place: usize, missing: &mut Missing) -> Option<Piece>
    requires place { place < length text.now }
    requires known { IsMissing text.now missing.old place }
    ensures exact { result ≡ markup_at text.now place }
    ensures known { IsMissing text.now missing.new place }
{
    if let Some(piece) = unlinked_at(text, place, missing) {
        return Some(piece);
    }
    uri(text, place, missing)
}

/// The piece that begins at the place, which is escaped or not, if a start is there. The word that begins there ends at
/// `end`.
#[tactic(auto, unfolding(crate::specs::Pieces::piece_at, crate::specs::Pieces::is_free))]
#[inline(always)]
fn piece_at(
    text: &[char],
    place: usize,
    end: usize,
    escaped: bool,
    missing: &mut Missing,
) -> Option<Piece>
    requires place { place < length text.now }
    requires word { IsWord text.now place end }
    requires known { IsMissing text.now missing.old place }
    ensures exact { (from : ℕ) → escaped ≡ is_escaped text.now from place → result ≡ piece_at false false text.now from place }
    ensures known { IsMissing text.now missing.new place }
{
    if place < end && !goes_on(text, end) {
        return None;
    }
    if !escaped && (place == 0 || may_precede_start(text[place - 1])) {
        markup_at(text, place, missing)
    } else {
        None
    }
}

/// Whether the text may hold an e-mail address or a URI of a registered scheme, where these are asked for.
fn may_hold_links(mail: bool, registered: bool, text: &[char]) -> bool
    ensures { result ≡ may_hold_links mail registered text.now }
{
    (mail && text.contains(&'@')) || (registered && text.contains(&':'))
}

/// The same of a text whose characters the bytes are.
fn may_hold_links_ascii(mail: bool, registered: bool, bytes: &[u8]) -> bool
    ensures { result ≡ may_hold_links mail registered bytes.now }
{
    (mail && bytes.contains(&b'@')) || (registered && bytes.contains(&b':'))
}

/// The pieces of the text, in order: with e-mail addresses where `mail` asks for them, and with the URIs of registered schemes in place of those of the base
/// where `registered` does. Exactly one list is that of a text ([`super::one_list_of_pieces`]).
///
/// What a failed search has found to be absent is remembered, so that the time grows no faster than the text. The pieces
/// take the place of what is in a list, so that a list can serve several texts.
pub fn pieces_of(
    alloc: Global,
    mail: bool,
    registered: bool,
    text: &[char],
    pieces: Vec<Piece>,
) -> Result<Vec<Piece>, AllocError>
    ensures { IfOk result (λ pieces. IsPieces mail registered text.now 0 pieces.items) }
{
    if may_hold_links(mail, registered, text) {
        return pieces_and_links(mail, registered, text, pieces);
    }
    let mut bytes = Vec::with_capacity(alloc, text.len())?;
    for c in text {
        bytes.push_reserved(if c.is_ascii() { *c as u8 } else { 128 });
    }
    pieces_by(text, &bytes, pieces)
}

/// The same of a text whose characters `bytes` are.
pub fn pieces_of_ascii(
    mail: bool,
    registered: bool,
    text: &[char],
    bytes: &[u8],
    pieces: Vec<Piece>,
) -> Result<Vec<Piece>, AllocError>
    requires { bytes.now ≡ text.now }
    ensures { IfOk result (λ pieces. IsPieces mail registered text.now 0 pieces.items) }
{
    if may_hold_links_ascii(mail, registered, bytes) {
        return pieces_and_links(mail, registered, text, pieces);
    }
    pieces_by(text, bytes, pieces)
}

/// The pieces of a text by the base, with a byte for each character: that of ASCII, or one past ASCII. The steps over what holds no markup are wider in bytes.
fn pieces_by(text: &[char], bytes: &[u8], mut pieces: Vec<Piece>) -> Result<Vec<Piece>, AllocError>
    requires { AreBytesOf text.now bytes.now }
    ensures { IfOk result (λ pieces. IsPieces false false text.now 0 pieces.items) }
{
    pieces.clear();
    let mut from = 0;
    let mut place = 0;
    let mut escaped = false;
    let mut missing = Missing::of(text);
    let mut searched = 0;
    while place < text.len() {
        let (start, start_escaped) = step(bytes, place, escaped, &mut searched);
        if start == text.len() {
            place = start;
            escaped = start_escaped;
            continue;
        }
        let end = word_end(text, start);
        match piece_at(text, start, end, start_escaped, &mut missing) {
            Some(piece) => {
                push_plain(&mut pieces, from, start)?;
                pieces.push(piece)?;
                from = piece.to;
                place = piece.to;
                escaped = false;
            }
            None => {
                // Nothing begins within a word or directly after it.
                if end == text.len() {
                    place = end;
                    escaped = false;
                    continue;
                }
                escaped = escapes(text[end], start_escaped & (start == end));
                place = end + 1;
            }
        }
    }
    push_plain(&mut pieces, from, place)?;
    Ok(pieces)
}

/// The piece that begins at the place: markup, or a URI of a registered scheme.
#[tactic(auto, unfolding(crate::specs::Pieces::marked_or_registered, crate::specs::Pieces::is_free, crate::specs::Pieces::is_free_link))]
fn marked_or_registered(
    text: &[char],
    from: usize,
    place: usize,
    end: usize,
    escaped: bool,
    missing: &mut Missing,
) -> Option<Piece>
    requires place { place < length text.now }
    requires order { from ≤ place }
    requires word { IsWord text.now place end }
    requires known { IsMissing text.now missing.old place }
    ensures exact { escaped ≡ is_escaped text.now from place → result ≡ marked_or_registered text.now from place }
    ensures known { IsMissing text.now missing.new place }
{
    if escaped {
        return None;
    }
    let after_start = place == 0 || may_precede_start(text[place - 1]);
    if after_start {
        if let Some(piece) = unlinked_at(text, place, missing) {
            return Some(piece);
        }
    }
    if after_start || place == from {
        registered_uri(text, place, end)
    } else {
        None
    }
}

/// The piece that begins at the place: markup or a standalone hyperlink.
#[tactic(auto, unfolding(crate::specs::Pieces::piece_at, crate::specs::Pieces::is_free_link))]
fn piece_or_link(
    text: &[char],
    from: usize,
    place: usize,
    end: usize,
    escaped: bool,
    mail: bool,
    registered: bool,
    missing: &mut Missing,
    searched: &mut usize,
) -> Option<Piece>
    requires place { place < length text.now }
    requires order { from ≤ place }
    requires word { IsWord text.now place end }
    requires known { IsMissing text.now missing.old place }
    requires searched { HasNoAddress text.now place searched.old }
    ensures exact { escaped ≡ is_escaped text.now from place → result ≡ piece_at mail registered text.now from place }
    ensures known { IsMissing text.now missing.new place }
    ensures searched { HasNoAddress text.now place searched.new }
{
    let found = if registered {
        marked_or_registered(text, from, place, end, escaped, missing)
    } else {
        piece_at(text, place, end, escaped, missing)
    };
    if let Some(piece) = found {
        return Some(piece);
    }
    if mail && !escaped && (place == from || may_precede_start(text[place - 1])) {
        address(text, place, searched)
    } else {
        None
    }
}

/// The pieces of a text, with addresses and the URIs of registered schemes where they are asked for. Each word is looked at: few texts hold an `@` or a colon.
fn pieces_and_links(
    mail: bool,
    registered: bool,
    text: &[char],
    mut pieces: Vec<Piece>,
) -> Result<Vec<Piece>, AllocError>
    ensures { IfOk result (λ pieces. IsPieces mail registered text.now 0 pieces.items) }
{
    pieces.clear();
    let mut from = 0;
    let mut place = 0;
    let mut escaped = false;
    let mut missing = Missing::of(text);
    let mut searched = 0;
    while place < text.len() {
        let end = word_end(text, place);
        match piece_or_link(
            text,
            from,
            place,
            end,
            escaped,
            mail,
            registered,
            &mut missing,
            &mut searched,
        ) {
            Some(piece) => {
                push_plain(&mut pieces, from, place)?;
                pieces.push(piece)?;
                from = piece.to;
                place = piece.to;
                escaped = false;
            }
            None => {
                // Nothing begins within a word or directly after it.
                if end == text.len() {
                    place = end;
                    escaped = false;
                    continue;
                }
                escaped = escapes(text[end], escaped & (place == end));
                place = end + 1;
            }
        }
    }
    push_plain(&mut pieces, from, place)?;
    Ok(pieces)
}

/// Pushes a plain piece, unless it is empty.
fn push_plain(pieces: &mut Vec<Piece>, from: usize, to: usize) -> Result<(), AllocError>
    ensures { IfOk result (λ done. pieces.new.items ≡ pieces.old.items ++ plain_if from to) }
{
    if from < to {
        pieces.push(Piece {
            kind: Kind::Plain,
            from,
            content_from: from,
            content_to: to,
            to,
        })?;
    }
    Ok(())
}
