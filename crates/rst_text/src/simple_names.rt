//! Simple reference names.
ghost use Rattle.std.specs.Prelude.{◌≡◌, ◌<◌, ◌≤◌, length, IfSome};
ghost use Rattle.rst_text.specs.SimpleNames.{is_joint, is_name_at, is_simple_name, name_stop};

use super::characters::is_alnum_at;

/// Whether the character may occur between two letters or numbers of a simple name: `-`, `_`, `.`, `:` or `+`.
#[tactic(auto, unfolding(crate::specs::SimpleNames::is_joint))]
pub fn is_joint(c: char) -> bool
    ensures { result ≡ is_joint c }
{
    matches!(c, '-' | '_' | '.' | ':' | '+')
}

/// Whether the place may be one of a simple name.
#[tactic(auto, unfolding(crate::specs::SimpleNames::is_name_at))]
pub fn is_name_at(text: &[char], place: usize) -> bool
    requires { place < length text.now }
    ensures { result ≡ is_name_at text.now place }
{
    is_alnum_at(text, place)
        || (is_joint(text[place])
            && 0 < place
            && is_alnum_at(text, place - 1)
            && is_alnum_at(text, place + 1))
}

/// Whether a text is a simple name: letters and numbers, with single inner `-`, `_`, `.`, `:` or `+`.
pub fn is_simple_name(text: &[char]) -> bool
    ensures { result ≡ is_simple_name text.now }
{
    let len = text.len();
    for place in 0..len {
        if !is_name_at(text, place) {
            return false;
        }
    }
    0 < len
}

/// The end of the longest simple name that begins at the place, where something follows it.
pub fn name_stop(text: &[char], start: usize) -> Option<usize>
    ensures exact { result ≡ name_stop text.now start }
    ensures above { IfSome result (λ stop. start ≤ stop) }
    ensures below { IfSome result (λ stop. stop < length text.now) }
{
    if !is_alnum_at(text, start) {
        return None;
    }
    for place in start..text.len() {
        if !is_name_at(text, place) {
            return Some(place);
        }
    }
    None
}
