//! Enumerators.
ghost use Rattle.std.specs.Prelude.{◌≡◌, ◌<◌, ◌^◌, ◌+◌, IfSome, chars};
ghost use Rattle.rst_markup_lines.specs.Enumerator as spec;

use super::class::{Class, run};
use super::decimal::number_of;
use super::marker::{Marker, marker_of};
use super::roman::{is_numeral_letter, roman};
use super::text::{after_first, begins_with, first_char};
use rst_text::skip;

/// What encloses an enumerator's ordinal.
#[derive(Clone, Copy, Debug, PartialEq, Eq)]
pub enum Format {
    /// `(x)`
    Parentheses,
    /// `x)`
    Parenthesis,
    /// `x.`
    Period,
}

/// The case of a letter.
#[derive(Clone, Copy, Debug, PartialEq, Eq)]
pub enum Case {
    Lower,
    Upper,
}

/// The readings of an enumerator's ordinal.
#[derive(Clone, Copy, Debug, PartialEq, Eq)]
pub enum Ordinals {
    /// `#`
    Auto,
    /// Digits.
    Arabic(u64),
    /// Letters of one case: the place of a single letter in the alphabet, from 1, and the value of a Roman numeral.
    Letters {
        case: Case,
        alphabet: Option<u64>,
        roman: Option<u64>,
    },
}

/// The ordinal at the front of a text: its readings and how many characters it has.
#[derive(Clone, Copy, Debug, PartialEq, Eq)]
pub struct Written {
    pub ordinals: Ordinals,
    pub len: usize,
}

/// An enumerator with its marker.
#[derive(Clone, Copy, Debug, PartialEq, Eq)]
pub struct Enumerator {
    pub format: Format,
    pub written: Written,
    pub marker: Marker,
}

/// The ordinal that the digits at the front of a text spell: at most nine.
#[tactic(auto, unfolding(crate::specs::Enumerator::arabic_at))]
fn digit_ordinal(text: &str) -> Option<Written>
    ensures value { result ≡ spec.arabic_at (chars text.now) }
    ensures short { IfSome result (λ written. written.len < 2 ^ 63) }
{
    let len = run(Class::Digit, text);
    if len == 0 || 9 < len {
        return None;
    }
    Some(Written {
        ordinals: Ordinals::Arabic(number_of(len, text)),
        len,
    })
}

/// The ordinal that the letters at the front of a text spell: a single letter, or a Roman numeral.
#[tactic(auto, unfolding(crate::specs::Enumerator::letters_at))]
fn letters(text: &str) -> Option<Written>
    ensures value { result ≡ spec.letters_at (chars text.now) }
    ensures short { IfSome result (λ written. written.len < 2 ^ 63) }
{
    let first = first_char(text)?;
    let len = run(Class::Letter, text);
    if len == 0 {
        return None;
    }
    let case = if matches!(first, 'a'..='z') {
        Case::Lower
    } else {
        Case::Upper
    };
    let numeral = roman(case, len, text);
    if len == 1 {
        return Some(Written {
            ordinals: Ordinals::Letters {
                case,
                // 96 and 64 are the codes before `a` and `A`.
                alphabet: match first {
                    'a'..='z' => Some(first as u64 - 96),
                    'A'..='Z' => Some(first as u64 - 64),
                    _ => None,
                },
                roman: numeral,
            },
            len,
        });
    }
    let value = numeral?;
    Some(Written {
        ordinals: Ordinals::Letters {
            case,
            alphabet: None,
            roman: Some(value),
        },
        len,
    })
}

/// Whether a character can't begin an enumerator, by the one after it.
fn begins_no_enumerator(c: char, following: Option<char>) -> bool
    ensures { result ≡ spec.begins_no_enumerator c following }
{
    if !c.is_ascii_alphabetic() {
        return !matches!(c, '0'..='9' | '#' | '(');
    }
    match following {
        None => true,
        Some(d) => {
            if d.is_ascii_alphabetic() {
                !(is_numeral_letter(c) && is_numeral_letter(d))
            } else {
                d != ')' && d != '.'
            }
        }
    }
}

/// The enumerator at the front of a line: `(x)`, `x)` or `x.`, and its marker.
#[inline(always)]
pub fn enumerator_of(text: &str) -> Option<Enumerator>
    ensures { result ≡ spec.enumerator_of (chars text.now) }
{
    // Most lines begin with a word, as its first two letters show.
    match first_char(text) {
        Some(c) if !begins_no_enumerator(c, first_char(after_first(text))) => read_enumerator(text),
        _ => None,
    }
}

/// The enumerator at the front of a line, which is read to its end.
// It stays out of its caller, which then has little to do for most lines.
#[inline(never)]
#[tactic(auto, unfolding(crate::specs::Enumerator::enumerator_of, crate::specs::Enumerator::written_at))]
fn read_enumerator(text: &str) -> Option<Enumerator>
    ensures { result ≡ spec.enumerator_of (chars text.now) }
{
    let from = if begins_with('(', text) { 1 } else { 0 };
    let ordinal = skip(text, from);
    let written = if begins_with('#', ordinal) {
        Written {
            ordinals: Ordinals::Auto,
            len: 1,
        }
    } else if let Some(arabic) = digit_ordinal(ordinal) {
        arabic
    } else {
        letters(ordinal)?
    };
    let format = match (from, first_char(skip(text, from + written.len))) {
        (1, Some(')')) => Format::Parentheses,
        (0, Some(')')) => Format::Parenthesis,
        (0, Some('.')) => Format::Period,
        _ => return None,
    };
    let marker = marker_of(from + written.len + 1, text)?;
    Some(Enumerator {
        format,
        written,
        marker,
    })
}

/// Whether a value is one more than another, where there are both.
#[tactic(auto, using(crate::proofs::EnumeratorLemmas::more_by_one))]
fn is_one_more(value: Option<u64>, next: Option<u64>) -> bool
    ensures { result ≡ spec.is_one_more value next }
{
    match (value, next) {
        (Some(value), Some(next)) => 0 < next && next - 1 == value,
        _ => false,
    }
}

/// Whether two formats are one.
pub fn is_same_format(a: Format, b: Format) -> bool
    ensures { result ≡ spec.is_same_format a b }
{
    matches!(
        (a, b),
        (Format::Parentheses, Format::Parentheses)
            | (Format::Parenthesis, Format::Parenthesis)
            | (Format::Period, Format::Period)
    )
}

/// Whether a line begins with a next enumerator of this one, under any reading, with a space and a text after it.
#[tactic(auto, unfolding(crate::specs::Enumerator::begins_next))]
pub fn begins_next(enumerator: Enumerator, text: &str) -> bool
    ensures { result ≡ spec.begins_next enumerator (chars text.now) }
{
    let Some(next) = enumerator_of(text) else {
        return false;
    };
    if next.marker.bare || !is_same_format(enumerator.format, next.format) {
        return false;
    }
    match (enumerator.written.ordinals, next.written.ordinals) {
        // `#` is next to any.
        (_, Ordinals::Auto) => true,
        (Ordinals::Arabic(a), Ordinals::Arabic(b)) => is_one_more(Some(a), Some(b)),
        (
            Ordinals::Letters {
                case,
                alphabet,
                roman,
            },
            Ordinals::Letters {
                case: next_case,
                alphabet: next_alphabet,
                roman: next_roman,
            },
        ) => {
            case == next_case
                && (is_one_more(alphabet, next_alphabet) || is_one_more(roman, next_roman))
        }
        _ => false,
    }
}

/// The sequences that ordinals of lists are counted in.
#[derive(Clone, Copy, Debug, PartialEq, Eq)]
pub enum Sequence {
    Arabic,
    LowerAlpha,
    UpperAlpha,
    LowerRoman,
    UpperRoman,
}

/// A reading of an ordinal.
#[derive(Clone, Copy, Debug, PartialEq, Eq)]
pub struct Reading {
    pub sequence: Sequence,
    pub ordinal: u64,
}

/// The reading that a list's first ordinal has: `#` is the Arabic 1, `i` and `I` are Roman, another single letter
/// is a letter of the alphabet.
pub fn first_reading(ordinals: Ordinals) -> Reading
    ensures { result ≡ spec.first_reading ordinals }
{
    let (sequence, ordinal) = match ordinals {
        Ordinals::Auto => (Sequence::Arabic, 1),
        Ordinals::Arabic(ordinal) => (Sequence::Arabic, ordinal),
        Ordinals::Letters {
            case,
            alphabet: Some(place),
            roman,
        } if roman != Some(1) => match case {
            Case::Lower => (Sequence::LowerAlpha, place),
            Case::Upper => (Sequence::UpperAlpha, place),
        },
        Ordinals::Letters {
            case: Case::Lower,
            roman,
            ..
        } => (Sequence::LowerRoman, roman.unwrap_or(0)),
        Ordinals::Letters {
            case: Case::Upper,
            roman,
            ..
        } => (Sequence::UpperRoman, roman.unwrap_or(0)),
    };
    Reading { sequence, ordinal }
}

/// The ordinal in a sequence, if it has a reading there; `#` has none.
pub fn ordinal_in(sequence: Sequence, ordinals: Ordinals) -> Option<u64>
    ensures { result ≡ spec.ordinal_in sequence ordinals }
{
    match (sequence, ordinals) {
        (Sequence::Arabic, Ordinals::Arabic(ordinal)) => Some(ordinal),
        (
            Sequence::LowerAlpha,
            Ordinals::Letters {
                case: Case::Lower,
                alphabet,
                ..
            },
        ) => alphabet,
        (
            Sequence::UpperAlpha,
            Ordinals::Letters {
                case: Case::Upper,
                alphabet,
                ..
            },
        ) => alphabet,
        (
            Sequence::LowerRoman,
            Ordinals::Letters {
                case: Case::Lower,
                roman,
                ..
            },
        ) => roman,
        (
            Sequence::UpperRoman,
            Ordinals::Letters {
                case: Case::Upper,
                roman,
                ..
            },
        ) => roman,
        _ => None,
    }
}
