//! Fields.
ghost use Rattle.std.specs.Prelude.{◌≡◌, chars};
ghost use Rattle.rst_markup_lines.specs.Field as spec;

use super::closing::{Closing, closed};
use super::marker::{Marker, marker_of};
use super::place::Characters;
use super::text::begins_with;
use rst_settings::Parts;
use rst_text::skip;

/// A field's name, as it is written, and its marker.
#[derive(Clone, Copy, Debug, PartialEq, Eq)]
pub struct FieldMark {
    pub name: Characters,
    pub marker: Marker,
}

/// The field mark at the front of a line: a name between colons, up to the first unescaped one with a space or the end
/// after it. The name isn't empty, doesn't begin with a space or a colon, and doesn't end with a space. With the part
/// `marks` it has no unescaped colon directly before a backquote: a line with such a colon begins with a role.
#[tactic(auto, unfolding(crate::specs::Field::field_of))]
pub fn field_of(parts: &Parts, text: &str) -> Option<FieldMark>
    ensures { result ≡ spec.field_of parts.now (chars text.now) }
{
    if !begins_with(':', text) {
        return None;
    }
    let following = skip(text, 1);
    let len = closed(Closing::Colon, following)?;
    if len == 0
        || begins_with(' ', following)
        || begins_with(':', following)
        || begins_with(' ', skip(following, len - 1))
    {
        return None;
    }
    if parts.marks && names_role(following, len) {
        return None;
    }
    let marker = marker_of(len + 2, text)?;
    Some(FieldMark {
        name: Characters {
            from: 1,
            to: 1 + len,
        },
        marker,
    })
}

/// Whether in the first `len` characters of a text an unescaped colon stands directly before a backquote.
fn names_role(text: &str, len: usize) -> bool
    ensures { result ≡ spec.names_role (chars text.now) len }
{
    match closed(Closing::ColonQuote, text) {
        Some(at) => at < len,
        None => false,
    }
}
