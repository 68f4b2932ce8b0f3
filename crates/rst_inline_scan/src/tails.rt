//! What may follow the end-string or the name of inline markup.
ghost use Rattle.std.specs.Prelude.{◌≡◌, ◌≤◌, length};
ghost use Rattle.rst_inline_scan.specs.Tails.{name_tail};

use super::characters::is_free_after;
use super::piece::{Suffix, Tail};
use rst_text::has;

/// The underscores after a name, two where both fit.
#[tactic(auto, unfolding(crate::specs::Tails::name_tail))]
pub(crate) fn name_tail(text: &[char], place: usize) -> Option<Tail>
    requires { place ≤ length text.now }
    ensures { result ≡ name_tail text.now place }
{
    if !has(text, place, '_') {
        return None;
    }
    if has(text, place + 1, '_') && is_free_after(text, place + 2) {
        return Some(Tail {
            suffix: Suffix::Anonymous,
            to: place + 2,
        });
    }
    if is_free_after(text, place + 1) {
        Some(Tail {
            suffix: Suffix::Named,
            to: place + 1,
        })
    } else {
        None
    }
}
