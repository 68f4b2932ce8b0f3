//! Characters of texts that are given as slices, and tables of words.
ghost use Rattle.std.specs.Prelude.{◌≡◌, ◌≤◌, IfOk, length, if◌then◌else◌};
ghost use Rattle.std.specs.Str.{str_eq_ignore_ascii_case};
ghost use Rattle.rst_text.specs.Text.{chars_of};
ghost use Rattle.rst_text.specs.Block.{indentation, is_blank};
ghost use Rattle.rst_text.specs.Characters.{is_among};
ghost use Rattle.rst_markup_directives.specs.Characters as spec;

use std::alloc::{AllocError, Global};

/// How many digits a text begins with.
#[tactic(auto, unfolding(rst_markup_lines::specs::Class::is_in, rst_markup_lines::specs::Class::run))]
pub(crate) fn digit_count(text: &[char]) -> usize
    ensures value { result ≡ spec.digit_count text.now }
    ensures within { result ≤ length text.now }
{
    text.iter().take_while(|c| c.is_ascii_digit()).count()
}

/// How many spaces a text begins with.
pub(crate) fn spaces(text: &[char]) -> usize
    ensures value { result ≡ indentation text.now }
    ensures within { result ≤ length text.now }
{
    let mut n = 0;
    for c in text {
        if *c != ' ' {
            break;
        }
        n += 1;
    }
    n
}

/// Whether a text is empty.
#[tactic(auto, using(crate::proofs::Runs::length_blank))]
pub(crate) fn is_empty_text(text: &[char]) -> bool
    ensures { result ≡ is_blank text.now }
{
    text.is_empty()
}

/// Whether a text has a character.
pub(crate) fn has_character(text: &[char], character: char) -> bool
    ensures { result ≡ is_among text.now character }
{
    text.iter().any(|c| character == *c)
}

/// Whether a text is a word of ASCII in lower case, exactly or without regard to the case of letters of ASCII.
pub(crate) fn is_word(text: &[char], word: &str, exactly: bool) -> bool
    ensures { result ≡ (if exactly then spec.is_exactly text.now else spec.is_word text.now) word.now }
{
    text.len() == word.len()
        && text.iter().zip(word.as_bytes()).all(|(c, b)| {
            let c = if exactly { *c } else { c.to_ascii_lowercase() };
            c == char::from(*b)
        })
}

/// Whether two texts are the same without regard to the case of letters of ASCII.
pub(crate) fn is_same_word(text: &[char], other: &[char]) -> bool
    ensures { result ≡ spec.is_same_word text.now other.now }
{
    text.len() == other.len()
        && text
            .iter()
            .zip(other)
            .all(|(c, d)| c.to_ascii_lowercase() == d.to_ascii_lowercase())
}

/// What a table has for a text, exactly or without regard to the case of letters of ASCII.
pub(crate) fn lookup<T: Copy>(text: &[char], table: &[(&str, T)], exactly: bool) -> Option<T>
    ensures { result ≡ spec.lookup (if exactly then spec.is_exactly text.now else spec.is_word text.now) (spec.table_of table.now) }
{
    for (word, value) in table {
        if is_word(text, word, exactly) {
            return Some(*value);
        }
    }
    None
}

/// Whether two texts are the same without regard to the case of letters of ASCII.
fn is_same_name(name: &str, other: &str) -> bool
    ensures { result ≡ str_eq_ignore_ascii_case name.now other.now }
{
    name.eq_ignore_ascii_case(other)
}

/// What a table has for a name, without regard to the case of letters of ASCII.
pub(crate) fn lookup_name<T: Copy>(name: &str, table: &[(&str, T)]) -> Option<T>
    ensures { result ≡ spec.lookup (str_eq_ignore_ascii_case name.now) (spec.table_of table.now) }
{
    for (word, value) in table {
        if is_same_name(name, word) {
            return Some(*value);
        }
    }
    None
}

/// The characters as a text.
pub(crate) fn text_from(alloc: Global, characters: &[char]) -> Result<String, AllocError>
    ensures { IfOk result (λ text. chars_of text ≡ characters.now) }
{
    let mut text = String::with_capacity(alloc, characters.len())?;
    for c in characters {
        text.push(*c)?;
    }
    Ok(text)
}
