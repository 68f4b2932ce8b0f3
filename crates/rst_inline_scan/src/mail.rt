//! E-mail addresses.
ghost use Rattle.std.specs.Prelude.{◌≡◌, None, ◌<◌, ◌≤◌, ℕ, length};
ghost use Rattle.rst_inline_scan.specs.Mail.{is_address_char, is_address_at, is_in_user, user_stop, has_at_sign, is_in_host, host_stop, host_end, address_end, address, is_address};
ghost use Rattle.rst_inline_scan.specs.Missing.{HasNoAddress};

use super::piece::{Kind, Piece};
use super::registered::ends_link;
use rst_text::has;

/// Whether an address may hold the character.
#[tactic(auto, unfolding(crate::specs::Mail::is_address_char))]
fn is_address_char(c: char) -> bool
    ensures { result ≡ is_address_char c }
{
    c.is_ascii_alphanumeric()
        || matches!(
            c,
            '-' | '_'
                | '!'
                | '~'
                | '*'
                | '\''
                | '{'
                | '|'
                | '}'
                | '/'
                | '#'
                | '?'
                | '^'
                | '`'
                | '&'
                | '='
                | '+'
                | '$'
                | '%'
        )
}

/// Whether a character of an address is at the place, or a backslash that is no part of an escaped backslash.
fn is_address_at(text: &[char], place: usize) -> bool
    ensures { result ≡ is_address_at text.now place }
{
    place < text.len()
        && (is_address_char(text[place]) || (has(text, place, '\\') && !has(text, place + 1, '\\')))
}

/// Whether the place may be in the name of an address.
fn is_in_user(text: &[char], place: usize) -> bool
    requires { place < length text.now }
    ensures { result ≡ is_in_user text.now place }
{
    is_address_at(text, place)
        || (has(text, place, '.')
            && is_address_at(text, place.saturating_sub(1))
            && is_address_at(text, place + 1))
}

/// The least place from the place on that may not be in a name, or the text's end.
fn user_stop(text: &[char], start: usize) -> usize
    requires { start ≤ length text.now }
    ensures exact { result ≡ user_stop text.now start }
    ensures above { start ≤ result }
    ensures below { result ≤ length text.now }
{
    for place in start..text.len() {
        if !is_in_user(text, place) {
            return place;
        }
    }
    text.len()
}

/// Whether an `@` is at the place, and not escaped.
fn has_at_sign(text: &[char], place: usize) -> bool
    ensures { result ≡ has_at_sign text.now place }
{
    has(text, place, '@') && !has(text, place.saturating_sub(1), '\\')
}

/// Whether the place may be in the host of an address.
fn is_in_host(text: &[char], place: usize) -> bool
    ensures { result ≡ is_in_host text.now place }
{
    is_address_at(text, place) || has(text, place, '.')
}

/// The least place from the place on that may not be in a host, or the text's end.
fn host_stop(text: &[char], start: usize) -> usize
    requires { start ≤ length text.now }
    ensures exact { result ≡ host_stop text.now start }
    ensures above { start ≤ result }
    ensures below { result ≤ length text.now }
{
    for place in start..text.len() {
        if !is_in_host(text, place) {
            return place;
        }
    }
    text.len()
}

/// The greatest end of the host that begins at the place.
#[tactic(auto, unfolding(crate::specs::Mail::host_end))]
fn host_end(text: &[char], start: usize) -> Option<usize>
    requires { start ≤ length text.now }
    ensures { result ≡ host_end text.now start }
{
    if !is_address_at(text, start) {
        return None;
    }
    let stop = host_stop(text, start);
    let mut end = stop + 1;
    while start + 1 < end {
        if ends_link(text, end) {
            return Some(end);
        }
        end -= 1;
    }
    None
}

/// The end of the address that begins at the place, and the place below which none begins where there is none.
#[tactic(auto, unfolding(crate::specs::Mail::address_end))]
pub(crate) fn address_end(text: &[char], start: usize) -> (Option<usize>, usize)
    requires { start ≤ length text.now }
    ensures exact { result.0 ≡ address_end text.now start }
    ensures reach { result.0 ≡ None → (i : ℕ) → start ≤ i → i < result.1 → address_end text.now i ≡ None }
{
    if !is_address_at(text, start) {
        return (None, start);
    }
    let stop = user_stop(text, start);
    if !has_at_sign(text, stop) {
        return (None, stop);
    }
    (host_end(text, stop + 1), stop)
}

/// The address that begins at the place. Below `searched` none begins at or past the place.
#[tactic(auto, unfolding(crate::specs::Mail::address))]
pub(crate) fn address(text: &[char], place: usize, searched: &mut usize) -> Option<Piece>
    requires place { place < length text.now }
    requires known { HasNoAddress text.now place searched.old }
    ensures exact { result ≡ address text.now place }
    ensures known { HasNoAddress text.now place searched.new }
{
    if place < *searched {
        return None;
    }
    let (found, reach) = address_end(text, place);
    match found {
        Some(end) => Some(Piece {
            kind: Kind::Address,
            from: place,
            content_from: place,
            content_to: end,
            to: end,
        }),
        None => {
            *searched = reach;
            None
        }
    }
}

/// Whether the whole text, which is without escapes, is one address.
#[tactic(auto, unfolding(crate::specs::Mail::is_address))]
pub fn is_address(text: &[char]) -> bool
    ensures { result ≡ is_address text.now }
{
    if text.contains(&'\\') {
        return false;
    }
    match address_end(text, 0) {
        (Some(end), _) => end == text.len(),
        (None, _) => false,
    }
}
