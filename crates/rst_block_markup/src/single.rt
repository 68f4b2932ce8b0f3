//! Blocks in blocks that are one paragraph (Directives, 'Replacement Text').
ghost use Rattle.std.specs.Prelude.{◌≡◌, ◌+◌, ◌-◌, ◌<◌, ◌≤◌, length, true, false};
ghost use Rattle.rst_text.specs.Looked.{Looked, capped};
ghost use Rattle.rst_text.specs.ViewBlock.{block_of};
ghost use Rattle.rst_markup_blocks.specs.Conditions.{next_text};
ghost use Rattle.rst_block_state.specs.Paragraphs as paragraphs;
ghost use Rattle.rst_markup_blocks.specs.Sizes.{overline_looks};

use rst_block_state::{announced, inside};
use rst_markup_blocks::{
    Adorned, Begun, LineTest, TextForm, adorned_at, begun_at, below_text, lines_end, text_form,
};
use rst_markup_lines::is_blank;
use rst_text::{Looks, View};

/// Whether the lines of a block in a block are one paragraph that doesn't vanish, and nothing else. It makes at most six looks more
/// than there are lines.
pub(crate) fn is_single_paragraph(view: &View<'_>, looks: &mut Looks) -> bool
    ensures paragraph { result ≡ paragraphs.is_single_paragraph (block_of view.now) }
    ensures looked { Looked 0 (length (block_of view.now) + 6) looks.old looks.new }
    ensures each { result ≡ true → capped (looks.old + length (block_of view.now)) ≤ looks.new }
{
    if view.len() == 0 || !begins_paragraph(view, looks) {
        return false;
    }
    let end = lines_end(view, 0, LineTest::Plain, looks);
    if end < view.len() {
        return false;
    }
    1 < end || !is_blank(announced(view.line(0, looks)))
}

/// Whether the first line of a block in a block begins a paragraph.
fn begins_paragraph(view: &View<'_>, looks: &mut Looks) -> bool
    requires inside { 0 < length (block_of view.now) }
    ensures paragraph { result ≡ paragraphs.begins_paragraph (block_of view.now) }
    ensures looked { Looked 2 (5 + overline_looks (next_text (block_of view.now))) looks.old looks.new }
{
    let text = view.line(0, looks);
    let next = below_text(view, 0, 1, looks);
    let begins = match begun_at(view, 0, looks) {
        Begun::Text => true,
        Begun::Adornment(mark) => matches!(
            adorned_at(view, 0, false, mark, next, looks),
            Adorned::Text | Adorned::ShortAdornment
        ),
        _ => false,
    };
    begins
        && matches!(
            text_form(text, next),
            TextForm::Paragraph | TextForm::ShortUnderline
        )
}
