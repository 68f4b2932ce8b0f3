//! Characters as texts of the tree.
ghost use Rattle.std.specs.Prelude.{◌≡◌, string_bytes, IfOk, chars};
ghost use Rattle.rst_text.specs.Names as names;
ghost use Rattle.rst_text.specs.Text.{chars_of};
ghost use Rattle.rst_text.specs.Escapes.{unescaped};
ghost use Rattle.rst_inline.specs.Parts.{part, text_bytes};
ghost use Rattle.rst_inline.specs.Elements.{text_value};

use rst_text::{characters_of, name_borrowed, normalized_borrowed, unescaped};
use rst_tree::{Result, Text, Value};
use std::alloc::{AllocError, Global};

/// The text without its escapes: a backslash vanishes, and white after one; any other character after one stays
/// (Markup Specification, 'Escaping Mechanism').
///
/// The only refusal is [`AllocError`].
pub fn unescape(alloc: Global, text: &str) -> Result<String>
    ensures { IfOk result (λ out. chars_of out ≡ unescaped (chars text.now)) }
{
    let characters = characters_of(alloc, text)?;
    let plain = unescaped(alloc, &characters)?;
    let out = spell(alloc, &plain)?;
    Ok(out)
}

/// The text that characters spell.
pub(crate) fn spell(alloc: Global, characters: &[char]) -> Result<String, AllocError>
    ensures bytes { IfOk result (λ out. string_bytes out ≡ text_bytes characters.now) }
    ensures same { IfOk result (λ out. chars_of out ≡ characters.now) }
{
    let mut out = String::with_capacity(alloc, characters.len())?;
    for c in characters {
        out.push(*c)?;
    }
    Ok(out)
}

/// A value that is a text.
#[tactic(auto, using(crate::proofs::TextLemmas::spelled_again))]
pub(crate) fn text_value(alloc: Global, text: &str) -> Result<Value>
    ensures { IfOk result (λ value. value ≡ text_value (chars text.now)) }
{
    let text = Text::from_str(alloc, text)?;
    Ok(Value::Text(text))
}

/// A value that is the name that a text gives.
pub(crate) fn name_value(alloc: Global, text: &str) -> Result<Value>
    ensures { IfOk result (λ value. value ≡ text_value (names.name_of (chars text.now))) }
{
    let name = name_borrowed(alloc, text)?;
    text_value(alloc, name.as_str())
}

/// A value that is a text with each run of white characters as one space, and none at the ends.
pub(crate) fn normalized_value(alloc: Global, text: &str) -> Result<Value>
    ensures { IfOk result (λ value. value ≡ text_value (names.normalized_white (chars text.now))) }
{
    let name = normalized_borrowed(alloc, text)?;
    text_value(alloc, name.as_str())
}

/// The characters from a place on, up to another place.
#[tactic(auto, using(crate::proofs::TextLemmas::part_is))]
pub fn part(text: &[char], low: usize, high: usize) -> &[char]
    ensures { result.now ≡ part text.now low high }
{
    let high = high.min(text.len());
    &text[low.min(high)..high]
}
