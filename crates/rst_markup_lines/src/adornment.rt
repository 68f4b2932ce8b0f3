//! Lines of one punctuation character.
ghost use Rattle.std.specs.Prelude.{◌≡◌, chars};
ghost use Rattle.rst_markup_lines.specs.Adornment as spec;

use super::class::{Class, run};
use super::text::{first_char, is_blank};
use rst_text::skip;

/// A line of one punctuation character: the character and how often it occurs there.
#[derive(Clone, Copy, Debug, PartialEq, Eq)]
pub struct Adornment {
    pub character: char,
    pub len: usize,
}

/// Whether a character is one of the 32 punctuation characters of ASCII.
pub fn is_punctuation(c: char) -> bool
    ensures { result ≡ spec.is_punctuation c }
{
    matches!(c, '!'..='/' | ':'..='@' | '['..='`' | '{'..='~')
}

/// The line as an adornment, if it is one punctuation character, once or more, and nothing else.
#[tactic(auto, using(crate::proofs::AdornmentLemmas::adornment_run))]
pub fn adornment_of(text: &str) -> Option<Adornment>
    ensures { result ≡ spec.adornment_of (chars text.now) }
{
    let c = first_char(text)?;
    if !is_punctuation(c) {
        return None;
    }
    let len = run(Class::Only(c), text);
    if !is_blank(skip(text, len)) {
        return None;
    }
    Some(Adornment { character: c, len })
}
