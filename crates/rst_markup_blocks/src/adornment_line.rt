//! Lines of one punctuation character.
ghost use Rattle.std.specs.Prelude.{◌≡◌, ◌+◌, ◌*◌, ◌<◌, length, drop, IsTrue, chars};
ghost use Rattle.rst_markup_blocks.specs.Prelude.{Looked, reach, block_of};
ghost use Rattle.rst_markup_blocks.specs.Forms.{adorned_form};
ghost use Rattle.rst_markup_blocks.specs.Conditions.{next_text};
ghost use Rattle.rst_markup_blocks.specs.Rows.{is_adornment_row};
ghost use Rattle.rst_markup_blocks.specs.Sizes as spec;

use super::ends::text_end;
use super::form::{Adorned, adorned_over};
use super::lines::below_text;
use rst_markup_lines::{Adornment, adornment_of, is_blank};
use rst_text::{Looks, View};

/// What the line of one punctuation character at place `i` begins, where `next` is the line below it. It makes a look
/// where that line isn't blank.
#[tactic(auto, unfolding(crate::specs::Forms::adorned_form, crate::specs::Forms::adorned_alone, crate::specs::Forms::adorned_below))]
pub fn adorned_at(
    view: &View<'_>,
    i: usize,
    titles: bool,
    mark: Adornment,
    next: &str,
    looks: &mut Looks,
) -> Adorned
    requires inside { i < length (block_of view.now) }
    requires next { chars next.now ≡ next_text (drop i (block_of view.now)) }
    ensures form { result ≡ adorned_form titles mark (next_text (drop i (block_of view.now))) (spec.third_text (drop i (block_of view.now))) }
    ensures looked { Looked 0 (spec.overline_looks (next_text (drop i (block_of view.now)))) looks.old looks.new }
{
    if !titles {
        if mark.character == ':' && mark.len == 2 {
            return Adorned::Text;
        }
        if mark.len >= 4 {
            return Adorned::Unexpected;
        }
        return Adorned::ShortAdornment;
    }
    if is_blank(next) {
        if mark.len >= 4 {
            return Adorned::Transition;
        }
        return Adorned::Text;
    }
    if 2 < view.len() - i {
        let after = view.line(i + 2, looks);
        adorned_over(mark, next, Some(after))
    } else {
        adorned_over(mark, next, None)
    }
}

/// How many lines a form takes whatever follows; none for one that is a text.
fn fixed_size(form: Adorned) -> Option<usize>
    ensures { result ≡ spec.fixed_size form }
{
    match form {
        Adorned::Transition | Adorned::Unexpected => Some(1),
        Adorned::InvalidMarker | Adorned::Incomplete | Adorned::MissingUnderline { blank: true } =>
            Some(2),
        Adorned::Title { .. } | Adorned::MissingUnderline { blank: false } | Adorned::Mismatch =>
            Some(3),
        Adorned::Text | Adorned::ShortOverline | Adorned::ShortAdornment => None,
    }
}

/// The place after what the line of one punctuation character at place `i` begins: a transition, a title with an overline, or a text.
pub(crate) fn adornment_end(view: &View<'_>, i: usize, titles: bool, looks: &mut Looks) -> usize
    requires inside { i < length (block_of view.now) }
    requires begins { IsTrue (is_adornment_row (drop i (block_of view.now))) }
    ensures end { result ≡ i + spec.adornment_size titles (drop i (block_of view.now)) }
    ensures looked { Looked 0 (4 * reach (spec.adornment_size titles (drop i (block_of view.now))) (drop i (block_of view.now))) looks.old looks.new }
{
    prove!(i < view.len());
    let text = view.line(i, looks);
    let next = below_text(view, i, 1, looks);
    let Some(mark) = adornment_of(text) else {
        return text_end(view, i, text, next, looks);
    };
    let form = adorned_at(view, i, titles, mark, next, looks);
    match fixed_size(form) {
        Some(n) => i + n,
        None => text_end(view, i, text, next, looks),
    }
}
