//! Words: runs of ASCII letters and digits, inside which nothing begins.
ghost use Rattle.std.specs.Prelude.{◌≡◌, ◌≤◌, length};
ghost use Rattle.rst_inline_scan.specs.Words.{IsWord, goes_on};

use rst_text::{has, is_name_at};

/// The end of the word that begins at the place, which may be empty.
pub(crate) fn word_end(text: &[char], place: usize) -> usize
    requires { place ≤ length text.now }
    ensures { IsWord text.now place result }
{
    for at in place..text.len() {
        // Most characters of words are in lower case.
        if !text[at].is_ascii_lowercase() && !text[at].is_ascii_alphanumeric() {
            return at;
        }
    }
    text.len()
}

/// Whether a reference by name or a URI may begin at a word that ends at the place.
#[tactic(auto, unfolding(crate::specs::Words::goes_on))]
pub(crate) fn goes_on(text: &[char], place: usize) -> bool
    ensures { result ≡ goes_on text.now place }
{
    has(text, place, '_')
        || has(text, place, ':')
        || (place < text.len() && is_name_at(text, place))
}
