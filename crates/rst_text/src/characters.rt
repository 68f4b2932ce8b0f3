//! Characters of a text, and its width.
ghost use Rattle.std.specs.Prelude.{◌≡◌, IfOk};
ghost use Rattle.std.specs.Str.{chars};
ghost use Rattle.rst_text.specs.Characters as spec;

use std::alloc::{AllocError, Global};
use unicode::properties::{GeneralCategory, GeneralCategoryGroup};
use unicode_width::UnicodeWidthStr;

/// Whether a character is white: Unicode's `White_Space`.
#[tactic(auto, unfolding(crate::specs::Characters::is_white))]
pub fn is_white(c: char) -> bool
    ensures { result ≡ spec.is_white c }
{
    c.is_whitespace()
}

/// Whether a character is a letter: its general category is L.
#[tactic(auto, unfolding(crate::specs::Characters::is_letter))]
pub fn is_letter(c: char) -> bool
    ensures { result ≡ spec.is_letter c }
{
    GeneralCategoryGroup::Letter.contains(GeneralCategory::for_char(c))
}

/// Whether a character is a letter or a number: its general category is L or N.
#[tactic(auto, unfolding(crate::specs::Characters::is_alphanumeric))]
pub fn is_alphanumeric(c: char) -> bool
    ensures { result ≡ spec.is_alphanumeric c }
{
    if c.is_ascii() {
        return c.is_ascii_alphanumeric();
    }
    let category = GeneralCategory::for_char(c);
    GeneralCategoryGroup::Letter.contains(category)
        | GeneralCategoryGroup::Number.contains(category)
}

/// How many columns a text takes, where characters of ambiguous width are narrow. A cluster, as a family of emoji,
/// takes the columns that it has as a whole.
#[tactic(auto, unfolding(crate::specs::Characters::columns))]
pub fn columns(text: &str) -> usize
    ensures { result ≡ spec.columns (chars text.now) }
{
    text.width()
}

/// The characters of a text.
pub fn characters_of(alloc: Global, text: &str) -> Result<Vec<char>, AllocError>
    ensures { IfOk result (λ characters. characters.items ≡ chars text.now) }
{
    if text.is_ascii() {
        return ascii_characters(alloc, text.as_bytes());
    }
    text.chars().collect(alloc)
}

/// ASCII as characters, each of which is a byte.
pub fn ascii_characters(alloc: Global, bytes: &[u8]) -> Result<Vec<char>, AllocError>
    ensures { IfOk result (λ characters. characters.items ≡ bytes.now) }
{
    let mut characters = Vec::with_capacity(alloc, bytes.len())?;
    for byte in bytes {
        characters.push_reserved(char::from(*byte));
    }
    Ok(characters)
}

/// Whether the character is at the place.
pub fn has(text: &[char], place: usize, c: char) -> bool
    ensures { result ≡ spec.has text.now place c }
{
    text.get(place) == Some(&c)
}

/// Whether a character that isn't white is at the place.
pub fn is_dark(text: &[char], place: usize) -> bool
    ensures { result ≡ spec.is_dark text.now place }
{
    match text.get(place) {
        Some(c) => !is_white(*c),
        None => false,
    }
}

/// Whether a letter or a number is at the place.
pub fn is_alnum_at(text: &[char], place: usize) -> bool
    ensures { result ≡ spec.is_alnum_at text.now place }
{
    match text.get(place) {
        Some(c) => is_alphanumeric(*c),
        None => false,
    }
}

/// A text without its white characters.
pub fn without_white(alloc: Global, text: &[char]) -> Result<Vec<char>, AllocError>
    ensures { IfOk result (λ dark. dark.items ≡ spec.without_white text.now) }
{
    let mut dark = Vec::with_capacity(alloc, text.len())?;
    for c in text {
        if !is_white(*c) {
            dark.push(*c)?;
        }
    }
    Ok(dark)
}
