//! What a paragraph contains of its text (Markup Specification, 'Literal Blocks').
ghost use Rattle.std.specs.Prelude.{◌≡◌, chars};
ghost use Rattle.rst_block_state.specs.Literals as spec;

use rst_markup_lines::{ends_in_colons, is_blank};

/// What a paragraph contains of a text. One that announces a literal block is without both colons and the white before them, if
/// white or nothing is before them, else without one.
pub fn announced(text: &str) -> &str
    ensures { chars result.now ≡ spec.announced (chars text.now) }
{
    if !ends_in_colons(text) {
        return text;
    }
    let before = text.strip_suffix("::").unwrap_or(text);
    let bare = before.trim_end();
    if bare.len() < before.len() || is_blank(bare) {
        return bare;
    }
    text.strip_suffix(":").unwrap_or(text)
}
