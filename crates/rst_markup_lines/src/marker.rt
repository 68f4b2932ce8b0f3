//! Markers: a mark at the front of a line with the spaces after it.
ghost use Rattle.std.specs.Prelude.{◌≡◌, chars};
ghost use Rattle.rst_markup_lines.specs.Marker as spec;

use super::text::{begins_with, first_char, is_blank};
use rst_text::{indentation, skip};

/// A mark at the front of a line: how many characters it has with the spaces after it, and whether nothing
/// follows these.
#[derive(Clone, Copy, Debug, PartialEq, Eq)]
pub struct Marker {
    pub cut: usize,
    pub bare: bool,
}

/// The marker that the first `n` characters of a line are, if spaces or the line's end are after them.
#[tactic(auto, unfolding(crate::specs::Marker::marker_of))]
pub fn marker_of(n: usize, text: &str) -> Option<Marker>
    ensures { result ≡ spec.marker_of n (chars text.now) }
{
    let following = skip(text, n);
    if is_blank(following) {
        return Some(Marker { cut: n, bare: true });
    }
    if !begins_with(' ', following) {
        return None;
    }
    let spaces = indentation(following);
    Some(Marker {
        cut: n + spaces,
        bare: is_blank(skip(following, spaces)),
    })
}

/// The marker of a bullet list's item.
#[tactic(auto, unfolding(crate::specs::Marker::bullet))]
pub fn bullet(text: &str) -> Option<Marker>
    ensures { result ≡ spec.bullet (chars text.now) }
{
    match first_char(text) {
        Some('*' | '+' | '-' | '\u{2022}' | '\u{2023}' | '\u{2043}') => marker_of(1, text),
        _ => None,
    }
}

/// The marker of a doctest block.
#[tactic(auto, unfolding(crate::specs::Marker::doctest))]
pub fn doctest(text: &str) -> Option<Marker>
    ensures { result ≡ spec.doctest (chars text.now) }
{
    if begins_with('>', text)
        && begins_with('>', skip(text, 1))
        && begins_with('>', skip(text, 2))
    {
        marker_of(3, text)
    } else {
        None
    }
}

/// The marker of a line of a line block.
#[tactic(auto, unfolding(crate::specs::Marker::line_bar))]
pub fn line_bar(text: &str) -> Option<Marker>
    ensures { result ≡ spec.line_bar (chars text.now) }
{
    if begins_with('|', text) {
        marker_of(1, text)
    } else {
        None
    }
}
