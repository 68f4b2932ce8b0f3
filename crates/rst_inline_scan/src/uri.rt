//! Standalone URIs.
ghost use Rattle.std.specs.Prelude.{◌≡◌, ◌<◌, ◌≤◌, ◌↔◌, ℕ, length, IsTrue};
ghost use Rattle.std.specs.Str.{chars};
ghost use Rattle.std.specs.List.{list_all};
ghost use Rattle.rst_inline_scan.specs.Uri.{has_any_case, scheme_end, is_uri_char, is_uri_trail, uri_stop, uri_close, uri_end, uri, IsUri, is_ascii_uri};
ghost use Rattle.rst_inline_scan.specs.Missing.{IsMissing};

use super::characters::is_free_after;
use super::missing::Missing;
use super::piece::{Kind, Piece};

/// The schemes, in lower case, with what is between them and what they name.
const SCHEMES: [&str; 7] = [
    "file://", "ftp://", "http://", "https://", "irc://", "mailto:", "news:",
];

/// Whether the word, which is in lower case, is at the place in any case.
pub(crate) fn begins_at(text: &[char], place: usize, word: &str) -> bool
    requires { place ≤ length text.now }
    ensures { result ≡ has_any_case text.now place word.now }
{
    let rest = &text[place..];
    word.len() <= rest.len()
        && rest
            .iter()
            .zip(word.as_bytes())
            .all(|(c, b)| c.to_ascii_lowercase() == char::from(*b))
}

/// The place after the scheme that begins at the place.
#[tactic(auto, unfolding(crate::specs::Uri::scheme_end))]
fn scheme_end(text: &[char], place: usize) -> Option<usize>
    requires { place ≤ length text.now }
    ensures { result ≡ scheme_end text.now place }
{
    for scheme in &SCHEMES {
        if begins_at(text, place, scheme) {
            return Some(place + scheme.len());
        }
    }
    None
}

/// Whether a URI may hold the character.
#[tactic(auto, unfolding(crate::specs::Uri::is_uri_char))]
pub(crate) fn is_uri_char(c: char) -> bool
    ensures { result ≡ is_uri_char c }
{
    c.is_ascii_alphanumeric()
        || matches!(
            c,
            '-' | '_'
                | '.'
                | '~'
                | '!'
                | '*'
                | '\''
                | '('
                | ')'
                | ';'
                | '/'
                | '?'
                | ':'
                | '@'
                | '&'
                | '='
                | '$'
                | '+'
                | ','
                | '%'
                | '#'
                | '['
                | ']'
        )
}

/// Whether the character ends no URI.
#[tactic(auto, unfolding(crate::specs::Uri::is_uri_trail))]
fn is_uri_trail(c: char) -> bool
    ensures { result ≡ is_uri_trail c }
{
    matches!(c, '.' | ',' | ':' | ';' | '!' | '?' | '\'' | ')' | ']')
}

/// The least place from the place on that holds no character of a URI, or the text's end.
fn uri_stop(text: &[char], start: usize) -> usize
    ensures exact { result ≡ uri_stop text.now start }
    ensures below { result ≤ length text.now }
{
    for place in start..text.len() {
        if !is_uri_char(text[place]) {
            return place;
        }
    }
    text.len()
}

/// The greatest end up to `stop` with no punctuation before it, that leaves something from `start` on.
fn uri_close(text: &[char], start: usize, stop: usize) -> Option<usize>
    requires { stop ≤ length text.now }
    ensures { result ≡ uri_close text.now start stop }
{
    let mut end = stop;
    while start < end {
        if !is_uri_trail(text[end - 1]) {
            return Some(end);
        }
        end -= 1;
    }
    None
}

/// The end of the URI that begins at the place, and the place below which none begins where there is none.
#[tactic(auto, unfolding(crate::specs::Uri::uri_end))]
pub(crate) fn uri_end(text: &[char], start: usize) -> (Option<usize>, usize)
    requires { start ≤ length text.now }
    ensures exact { result.0 ≡ uri_end text.now start }
    ensures reach { result.0 ≡ None → (i : ℕ) → start ≤ i → i < result.1 → uri_end text.now i ≡ None }
{
    match scheme_end(text, start) {
        None => (None, start),
        Some(after_scheme) => match uri_close(text, after_scheme, uri_stop(text, after_scheme)) {
            None => (None, start),
            Some(end) => if is_free_after(text, end) {
                (Some(end), end)
            } else {
                (None, end)
            },
        },
    }
}

/// The URI that begins at the place.
#[tactic(auto, unfolding(crate::specs::Uri::uri))]
pub(crate) fn uri(text: &[char], place: usize, missing: &mut Missing) -> Option<Piece>
    requires place { place < length text.now }
    requires known { IsMissing text.now missing.old place }
    ensures exact { result ≡ uri text.now place }
    ensures known { IsMissing text.now missing.new place }
{
    let end = missing.uri_end(text, place)?;
    Some(Piece {
        kind: Kind::Uri,
        from: place,
        content_from: place,
        content_to: end,
        to: end,
    })
}

/// Whether the whole text is one standalone URI (Markup Specification, 'Standalone Hyperlinks'): a scheme, one of file, ftp,
/// http, https, irc, mailto and news, and some characters that a URI may hold, the last no punctuation that ends none.
pub fn plain_uri(text: &str) -> bool
    ensures { IsTrue result ↔ IsUri (chars text.now) }
{
    is_ascii_uri(text.as_bytes())
}

/// Whether the bytes, which are characters of their own in a URI, are one.
fn is_ascii_uri(bytes: &[u8]) -> bool
    ensures { result ≡ is_ascii_uri bytes.now }
{
    match ascii_scheme_end(bytes) {
        Some(after_scheme) => after_scheme < bytes.len()
            && are_uri_chars(bytes)
            && !is_uri_trail(char::from(bytes[bytes.len() - 1])),
        None => false,
    }
}

fn are_uri_chars(bytes: &[u8]) -> bool
    ensures { result ≡ list_all is_uri_char bytes.now }
{
    bytes.iter().all(|byte| is_uri_char(char::from(*byte)))
}

/// The place after the scheme that the bytes begin with.
#[tactic(auto, unfolding(crate::specs::Uri::scheme_end))]
fn ascii_scheme_end(bytes: &[u8]) -> Option<usize>
    ensures { result ≡ scheme_end bytes.now 0 }
{
    for scheme in &SCHEMES {
        if begins_with_ignoring_case(bytes, scheme) {
            return Some(scheme.len());
        }
    }
    None
}

/// Whether the bytes begin with the word, which is in lower case, in any case.
fn begins_with_ignoring_case(bytes: &[u8], word: &str) -> bool
    ensures { result ≡ has_any_case bytes.now 0 word.now }
{
    word.len() <= bytes.len()
        && bytes
            .iter()
            .zip(word.as_bytes())
            .all(|(c, b)| c.to_ascii_lowercase() == *b)
}
