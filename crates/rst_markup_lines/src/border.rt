//! Borders of tables.
ghost use Rattle.std.specs.Prelude.{◌≡◌, chars};
ghost use Rattle.rst_markup_lines.specs.Border as spec;

use super::class::{Class, run};
use super::text::{begins_with, is_blank};
use rst_text::skip;

/// Whether a line begins a grid table: `+-`, one or more of `-` and `+`, `-+`.
#[tactic(auto, using(crate::proofs::BorderLemmas::grid_run))]
pub fn is_grid_border(text: &str) -> bool
    ensures { result ≡ spec.is_grid_border (chars text.now) }
{
    let len = run(Class::Either('-', '+'), text);
    5 <= len
        && is_blank(skip(text, len))
        && begins_with('+', text)
        && begins_with('-', skip(text, 1))
        && begins_with('-', skip(text, len - 2))
        && begins_with('+', skip(text, len - 1))
}

/// Whether a line begins a simple table: two or more runs of `=` parted by spaces.
#[tactic(auto, using(crate::proofs::BorderLemmas::simple_run))]
pub fn is_simple_border(text: &str) -> bool
    ensures { result ≡ spec.is_simple_border (chars text.now) }
{
    let len = run(Class::Either('=', ' '), text);
    let first = run(Class::Only('='), text);
    0 < first && first < len && is_blank(skip(text, len)) && begins_with('=', skip(text, len - 1))
}
