//! Lines that tables are recognized by.
ghost use Rattle.std.specs.Prelude.{◌≡◌, chars};
ghost use Rattle.rst_markup_blocks.specs.TableLines as spec;

use rst_markup_lines::{Class, begins_with, is_blank, run};
use rst_text::skip;

/// Whether a line begins with `+` or `|`, as each line of a grid table does.
#[tactic(auto, unfolding(crate::specs::TableLines::is_drawn))]
pub fn is_drawn(text: &str) -> bool
    ensures { result ≡ spec.is_drawn (chars text.now) }
{
    begins_with('+', text) || begins_with('|', text)
}

/// How long a border of a simple table is: how many `=` and spaces are at its front.
#[tactic(auto, unfolding(crate::specs::TableLines::border_len))]
pub(crate) fn border_len(text: &str) -> usize
    ensures { result ≡ spec.border_len (chars text.now) }
{
    run(Class::Either('=', ' '), text)
}

/// Whether a line is a border of a simple table: `=` and spaces, `=` first.
#[tactic(auto, unfolding(crate::specs::TableLines::is_lower_border))]
pub(crate) fn is_lower_border(text: &str) -> bool
    ensures { result ≡ spec.is_lower_border (chars text.now) }
{
    begins_with('=', text) && is_blank(skip(text, border_len(text)))
}
