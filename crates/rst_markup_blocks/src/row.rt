//! Conditions of the rows of the table of constructs that look below the line.
ghost use Rattle.std.specs.Prelude.{◌≡◌, chars};
ghost use Rattle.rst_markup_blocks.specs.Conditions as spec;

use rst_markup_lines::{
    Enumerator, Marker, begins_next, begins_with, enumerator_of, is_blank, is_loose, option_marker,
};

/// The enumerator that begins a list's item: the next line is missing, blank, indented, or begins with a next
/// enumerator and a space.
#[tactic(auto, unfolding(crate::specs::Conditions::item_enumerator))]
pub(crate) fn item_enumerator(text: &str, next: &str) -> Option<Enumerator>
    ensures { result ≡ spec.item_enumerator (chars text.now) (chars next.now) }
{
    let enumerator = enumerator_of(text)?;
    if is_loose(next) || begins_next(enumerator, next) {
        Some(enumerator)
    } else {
        None
    }
}

/// The marker that begins an option list's item: a description follows it or is indented in the next line, which
/// may follow a blank one.
#[tactic(auto, unfolding(crate::specs::Conditions::item_option))]
pub(crate) fn item_option(text: &str, next: &str, after: &str) -> Option<Marker>
    ensures { result ≡ spec.item_option (chars text.now) (chars next.now) (chars after.now) }
{
    let marker = option_marker(text)?;
    if !marker.bare || begins_with(' ', next) || (is_blank(next) && begins_with(' ', after)) {
        Some(marker)
    } else {
        None
    }
}
