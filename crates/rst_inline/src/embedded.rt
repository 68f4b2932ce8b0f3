//! Embedded URIs and aliases.
ghost use Rattle.std.specs.Prelude.{◌≡◌, ◌+◌, ◌<◌, ◌≤◌, length, IfSome, ◌&&◌, ◌==◌};
ghost use Rattle.rst_inline.specs.Embedded.{ends_with, last_angle, embedded_at, dark_end, is_alias};

use rst_text::{escapes, has, is_dark, is_white};

/// Whether the last character is this one, and not escaped.
fn ends_with(text: &[char], c: char) -> bool
    ensures { result ≡ ends_with text.now c }
{
    let last = text.len().saturating_sub(1);
    if !has(text, last, c) {
        return false;
    }
    let mut escaped = false;
    for place in 0..last {
        escaped = escapes(text[place], escaped);
    }
    !escaped
}

/// The place of the last `<` that is not escaped.
fn last_angle(text: &[char]) -> Option<usize>
    ensures exact { result ≡ last_angle text.now }
    ensures below { IfSome result (λ place. place < length text.now) }
{
    let mut found = None;
    let mut escaped = false;
    for place in 0..text.len() {
        let c = text[place];
        // By `&` the loop has one path to prove, by `&&` it would have two.
        let opens = (c == '<') & !escaped;
        escaped = escapes(c, escaped);
        if opens {
            found = Some(place);
            continue;
        }
    }
    found
}

/// Where the `<` of an embedded URI or alias is at the end of a phrase, if it has one.
#[tactic(auto, unfolding(crate::specs::Embedded::embedded_at, crate::specs::Embedded::fits_angle))]
pub(crate) fn embedded_at(phrase: &[char]) -> Option<usize>
    ensures exact { result ≡ embedded_at phrase.now }
    ensures below { IfSome result (λ place. place + 2 < length phrase.now) }
{
    if !ends_with(phrase, '>') {
        return None;
    }
    let place = last_angle(phrase)?;
    // What the angle brackets hold, and what precedes them, has to fit.
    if place + 2 < phrase.len()
        && is_dark(phrase, place + 1)
        && is_dark(phrase, phrase.len() - 2)
        && (place == 0 || is_white(phrase[place - 1]))
    {
        Some(place)
    } else {
        None
    }
}

/// Whether what the angle brackets hold is an alias.
#[tactic(auto, unfolding(crate::specs::Embedded::is_alias))]
pub(crate) fn is_alias(enclosed: &[char]) -> bool
    ensures { result ≡ is_alias enclosed.now }
{
    1 < enclosed.len() && ends_with(enclosed, '_')
}

/// The place after the last character before `place` that isn't white.
pub(crate) fn dark_end(text: &[char], place: usize) -> usize
    requires { place ≤ length text.now }
    ensures exact { result ≡ dark_end text.now place }
    ensures below { result ≤ place }
{
    let mut end = place;
    while 0 < end {
        if !is_white(text[end - 1]) {
            return end;
        }
        end -= 1;
    }
    end
}
