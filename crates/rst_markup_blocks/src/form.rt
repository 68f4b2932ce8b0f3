//! What a line of text, or of one punctuation character, begins.
ghost use Rattle.std.specs.Prelude.{◌≡◌, chars};
ghost use Rattle.rst_markup_blocks.specs.Forms as spec;

use rst_markup_lines::{Adornment, adornment_of, begins_with, is_blank};
use rst_text::columns;

/// What a line of text begins.
#[derive(Clone, Copy, Debug, PartialEq, Eq)]
pub enum TextForm {
    /// A paragraph.
    Paragraph,
    /// A paragraph whose second line is a possible underline that is too short.
    ShortUnderline,
    /// An item of a definition list.
    Definition,
    /// A title with its underline, which may be shorter than the title.
    Title { short: bool },
}

/// What a line of one punctuation character begins.
#[derive(Clone, Copy, Debug, PartialEq, Eq)]
pub enum Adorned {
    /// A text.
    Text,
    /// A text, since the line is too short for an overline, where titles are allowed.
    ShortOverline,
    /// A text, since the line is too short for an overline or a transition, where no title is allowed.
    ShortAdornment,
    /// A transition.
    Transition,
    /// A title between its overline, which may be shorter than the title, and its underline.
    Title { short: bool },
    /// Two such lines, which are neither.
    InvalidMarker,
    /// An overline and a title at the end of the block.
    Incomplete,
    /// An overline and a title without an underline: a blank line follows, or another.
    MissingUnderline { blank: bool },
    /// An overline and a title with another underline.
    Mismatch,
    /// A title or transition where neither is allowed.
    Unexpected,
}

/// The form of a text, where this is the next line.
#[tactic(auto, unfolding(crate::specs::Forms::text_form, crate::specs::Forms::underlined))]
pub fn text_form(text: &str, next: &str) -> TextForm
    ensures { result ≡ spec.text_form (chars text.now) (chars next.now) }
{
    if begins_with(' ', next) {
        return TextForm::Definition;
    }
    let Some(mark) = adornment_of(next) else {
        return TextForm::Paragraph;
    };
    if mark.len >= columns(text) {
        return TextForm::Title { short: false };
    }
    if mark.len < 4 {
        return TextForm::ShortUnderline;
    }
    TextForm::Title { short: true }
}

/// The form of an overline over a title that isn't blank, if it is long enough, where this is the line after the title.
#[tactic(auto, unfolding(crate::specs::Forms::overlined))]
fn overlined(mark: Adornment, next: &str, after: Option<&str>) -> Adorned
    ensures { result ≡ spec.overlined mark (chars next.now) (spec.chars_if_any after.entry) }
{
    if adornment_of(next).is_some() {
        return Adorned::InvalidMarker;
    }
    let Some(after) = after else {
        return Adorned::Incomplete;
    };
    match adornment_of(after) {
        None => Adorned::MissingUnderline {
            blank: is_blank(after),
        },
        Some(under) => {
            if mark == under {
                Adorned::Title {
                    short: mark.len < columns(next),
                }
            } else {
                Adorned::Mismatch
            }
        }
    }
}

/// The form of a line of one punctuation character over a line that isn't blank, where titles are allowed.
#[tactic(auto, unfolding(crate::specs::Forms::adorned_over))]
pub(crate) fn adorned_over(mark: Adornment, next: &str, after: Option<&str>) -> Adorned
    ensures { result ≡ spec.adorned_over mark (chars next.now) (spec.chars_if_any after.entry) }
{
    let form = overlined(mark, next, after);
    if mark.len >= 4 || matches!(form, Adorned::Title { short: false }) {
        form
    } else {
        Adorned::ShortOverline
    }
}
