//! Attributions.
ghost use Rattle.std.specs.Prelude.{◌≡◌, chars};
ghost use Rattle.rst_markup_lines.specs.Attribution as spec;

use super::class::{Class, run};
use super::text::{begins_with, is_blank};
use rst_text::{indentation, skip};

/// How many characters come before the text of an attribution, if a line is one: a dash, which is `--`, `---` or U+2014, maybe
/// spaces, and a text.
#[tactic(auto, unfolding(crate::specs::Attribution::attribution_of, crate::specs::Attribution::dash_len))]
pub fn attribution_of(text: &str) -> Option<usize>
    ensures { result ≡ spec.attribution_of (chars text.now) }
{
    let hyphens = run(Class::Only('-'), text);
    let dash = if begins_with('\u{2014}', text) {
        1
    } else if hyphens == 2 || hyphens == 3 {
        hyphens
    } else {
        return None;
    };
    let following = skip(text, dash);
    let spaces = indentation(following);
    if is_blank(skip(following, spaces)) {
        return None;
    }
    Some(dash + spaces)
}
