//! Measures, scales and alignments.
ghost use Rattle.std.specs.Prelude.{◌≡◌, ◌≤◌, length, IfOk, option_map};
ghost use Rattle.std.specs.List.{list_any};
ghost use Rattle.rst_text.specs.Text.{chars_of};
ghost use Rattle.rst_markup_directives.specs.Characters.{is_exactly};
ghost use Rattle.rst_markup_directives.specs.Measure as spec;

use super::characters::{digit_count, is_empty_text, is_word, lookup, spaces, text_from};
use rst_markup_lines::number_of;
use rst_text::has;
use std::alloc::{AllocError, Global};

/// Where an image or a figure is.
#[derive(Clone, Copy, Debug, PartialEq, Eq)]
pub enum Alignment {
    Top,
    Middle,
    Bottom,
    Left,
    Center,
    Right,
}

/// The alignments by their words, the vertical ones last.
const ALIGNMENTS: [(&str, Alignment); 6] = [
    ("left", Alignment::Left),
    ("center", Alignment::Center),
    ("right", Alignment::Right),
    ("top", Alignment::Top),
    ("middle", Alignment::Middle),
    ("bottom", Alignment::Bottom),
];

/// How many characters the number has that a measure begins with: digits, maybe a point and digits; 0 if there is
/// none.
#[tactic(auto, unfolding(crate::specs::Measure::number_len))]
fn number_len(text: &[char]) -> usize
    ensures value { result ≡ spec.number_len text.now }
    ensures within { result ≤ length text.now }
{
    let whole = digit_count(text);
    if whole == 0 || !has(text, whole, '.') {
        return whole;
    }
    let part = digit_count(&text[whole + 1..]);
    if part == 0 { whole } else { whole + 1 + part }
}

/// Whether a text is the unit of a length, or a percent sign where that is allowed.
fn is_unit(text: &[char], percent: bool) -> bool
    ensures { result ≡ list_any (is_exactly text.now) (spec.units percent) }
{
    is_word(text, "em", true)
        || (is_word(text, "ex", true)
            || (is_word(text, "px", true)
                || (is_word(text, "in", true)
                    || (is_word(text, "cm", true)
                        || (is_word(text, "mm", true)
                            || (is_word(text, "pt", true)
                                || (is_word(text, "pc", true)
                                    || (percent && is_word(text, "%", true)))))))))
}

/// A measure without its spaces, where it is right: a number and maybe a unit, which is `px` if there is none and one
/// is wanted.
#[tactic(auto, unfolding(crate::specs::Measure::measure_of))]
pub(crate) fn measure_of(
    alloc: Global,
    text: &[char],
    percent: bool,
    wanted: bool,
) -> Result<Option<String>, AllocError>
    ensures { IfOk result (λ measure. option_map chars_of measure ≡ spec.measure_of text.now percent wanted) }
{
    let n = number_len(text);
    let after_number = &text[n..];
    let unit = &after_number[spaces(after_number)..];
    if n == 0 || !(is_empty_text(unit) || is_unit(unit, percent)) {
        return Ok(None);
    }
    let mut measure = Vec::from_slice(alloc, &text[..n])?;
    if wanted && is_empty_text(unit) {
        measure.extend_from_slice(&['p', 'x'])?;
    } else {
        measure.extend_from_slice(unit)?;
    }
    Ok(Some(text_from(alloc, &measure)?))
}

/// The number of a scale: one to nine digits, maybe a percent sign with or without spaces before it.
#[tactic(auto, unfolding(crate::specs::Measure::scale_of))]
pub(crate) fn scale_of(alloc: Global, text: &[char]) -> Result<Option<u64>, AllocError>
    ensures { IfOk result (λ number. number ≡ spec.scale_of text.now) }
{
    let n = digit_count(text);
    if n == 0 || 9 < n {
        return Ok(None);
    }
    let after_number = &text[n..];
    if !is_empty_text(after_number) && !is_word(&after_number[spaces(after_number)..], "%", true) {
        return Ok(None);
    }
    let text = text_from(alloc, text)?;
    Ok(Some(number_of(n, text.as_str())))
}

/// The alignment that a word names; a figure has none of the vertical ones.
#[tactic(auto, unfolding(crate::specs::Measure::alignment_of))]
pub(crate) fn alignment_of(text: &[char], vertical: bool) -> Option<Alignment>
    ensures { result ≡ spec.alignment_of text.now vertical }
{
    let alignments = if vertical {
        &ALIGNMENTS[..]
    } else {
        &ALIGNMENTS[..3]
    };
    lookup(text, alignments, true)
}
