//! Where what an opening mark began is closed.
ghost use Rattle.std.specs.Prelude.{◌≡◌, ◌<◌, ◌-◌, ◌&&◌, not, length, IfSome, chars};
ghost use Rattle.rst_markup_lines.specs.Closing as spec;

use super::text::{after_first, begins_with, first_char, is_loose};
use rst_text::{escapes, is_white, skip};

/// What closes.
#[derive(Clone, Copy, Debug, PartialEq, Eq)]
pub(crate) enum Closing {
    /// A colon with a space or the end after it.
    Colon,
    /// A backquote with such a colon after it.
    QuotedColon,
    /// A colon with a backquote after it.
    ColonQuote,
    /// A bar with a character before it that isn't white.
    Bar,
    /// Such a bar with a space after it.
    SpacedBar,
}

/// Whether a character closes, by whether it is escaped, and whether one that isn't white comes before it.
#[tactic(auto, unfolding(crate::specs::Closing::is_closing))]
fn closes(closing: Closing, escaped: bool, dark: bool, c: char, following: &str) -> bool
    ensures { result ≡ (not escaped && spec.is_closing closing dark c (chars following.now)) }
{
    if escaped {
        return false;
    }
    match closing {
        Closing::Colon => c == ':' && is_loose(following),
        Closing::QuotedColon => {
            c == '`' && begins_with(':', following) && is_loose(skip(following, 1))
        }
        Closing::ColonQuote => c == ':' && begins_with('`', following),
        Closing::Bar => c == '|' && dark,
        Closing::SpacedBar => c == '|' && dark && begins_with(' ', following),
    }
}

/// How many characters come before the first one that closes and isn't escaped.
pub(crate) fn closed(closing: Closing, text: &str) -> Option<usize>
    ensures value { result ≡ spec.closed closing (chars text.now) }
    ensures within { IfSome result (λ n. n < length text.now) }
{
    let mut rest = text;
    let mut n = 0;
    let mut escaped = false;
    let mut dark = false;
    while let Some(letter) = first_char(rest) {
        let following = after_first(rest);
        if closes(closing, escaped, dark, letter, following) {
            return Some(n);
        }
        n += 1;
        escaped = escapes(letter, escaped);
        dark = !is_white(letter);
        rest = following;
    }
    None
}

/// Whether a text ends in two colons that aren't escaped.
pub fn ends_in_colons(text: &str) -> bool
    ensures { result ≡ spec.ends_in_colons (chars text.now) }
{
    let Some(mut rest) = text.strip_suffix("::") else {
        return false;
    };
    // An odd number of backslashes escapes what follows them.
    let mut escaped = false;
    while let Some(fewer) = rest.strip_suffix("\\") {
        escaped = !escaped;
        rest = fewer;
    }
    !escaped
}
