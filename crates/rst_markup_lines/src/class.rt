//! Classes of characters, and runs of them at the front of a text.
ghost use Rattle.std.specs.Prelude.{◌≡◌, ◌≤◌, length, chars};
ghost use Rattle.rst_markup_lines.specs.Class as spec;

use super::text::{after_first, first_char};
use rst_text::is_alphanumeric;

/// A class of characters.
#[derive(Clone, Copy, Debug, PartialEq, Eq)]
pub enum Class {
    /// This character.
    Only(char),
    /// One of these two.
    Either(char, char),
    /// ASCII digits.
    Digit,
    /// ASCII letters.
    Letter,
    /// Letters and numbers by general category, `_` and `-`.
    Option,
    /// What may be in an argument in angle brackets: anything but these.
    Bracketed,
    /// What may be in a label: anything but a closing bracket.
    Unbracketed,
}

/// Whether a character is in a class.
#[inline(always)]
#[tactic(auto, unfolding(crate::specs::Class::is_in))]
fn is_in(class: Class, c: char) -> bool
    ensures { result ≡ spec.is_in class c }
{
    match class {
        Class::Only(a) => c == a,
        Class::Either(a, b) => c == a || c == b,
        Class::Digit => matches!(c, '0'..='9'),
        Class::Letter => matches!(c, 'a'..='z' | 'A'..='Z'),
        Class::Option => is_alphanumeric(c) || matches!(c, '_' | '-'),
        Class::Bracketed => !matches!(c, '<' | '>'),
        Class::Unbracketed => c != ']',
    }
}

/// How many characters at the front of a text are in a class.
// Each caller knows the class: in its place, the loop asks for nothing else.
#[inline(always)]
pub fn run(class: Class, text: &str) -> usize
    ensures value { result ≡ spec.run class (chars text.now) }
    ensures within { result ≤ length text.now }
{
    let mut rest = text;
    let mut n = 0;
    while let Some(c) = first_char(rest) {
        if !is_in(class, c) {
            break;
        }
        n += 1;
        rest = after_first(rest);
    }
    n
}
