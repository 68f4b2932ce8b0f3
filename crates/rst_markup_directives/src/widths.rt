//! The widths of the columns of tables.
ghost use Rattle.std.specs.Prelude.{◌≡◌, ◌==◌, map, IfOk, option_map};
ghost use Rattle.std.specs.List.{slice_split};
ghost use Rattle.rst_markup_directives.specs.Widths as spec;

use super::characters::{has_character, is_word, text_from};
use super::contents::depth_of;
use rst_text::{characters_of, normalized_white};
use std::alloc::{AllocError, Global};

/// The widths of the columns of a table.
#[derive(Debug, Drop)]
pub enum Widths {
    /// Those that the content takes.
    Auto,
    /// Those that are drawn.
    Drawn,
    /// These, at least one, each above 0.
    Given(Vec<u64>),
}

impl Widths {
    /// The class of a table with such columns.
    pub fn class(&self) -> &'static str
        ensures { result.now ≡ spec.columns_class (spec.columns_in self.now) }
    {
        match self {
            Widths::Auto => "colwidths-auto",
            Widths::Drawn | Widths::Given(_) => "colwidths-given",
        }
    }

    /// The same widths.
    ///
    /// The only refusal is [`AllocError`].
    pub fn copy(&self, alloc: Global) -> Result<Widths, AllocError>
        ensures { IfOk result (λ widths. spec.columns_in widths ≡ spec.columns_in self.now) }
    {
        match self {
            Widths::Auto => Ok(Widths::Auto),
            Widths::Drawn => Ok(Widths::Drawn),
            Widths::Given(widths) => Ok(Widths::Given(Vec::from_slice(alloc, widths)?)),
        }
    }
}

/// A width: one to nine digits, maybe between white characters, and not 0.
#[tactic(auto, unfolding(crate::specs::Widths::width_of))]
fn width_of(alloc: Global, text: &[char]) -> Result<Option<u64>, AllocError>
    ensures { IfOk result (λ width. width ≡ spec.width_of text.now) }
{
    let text = text_from(alloc, text)?;
    let text = normalized_white(alloc, text.as_str())?;
    let text = characters_of(alloc, text.as_str())?;
    match depth_of(alloc, &text)? {
        Some(0) => Ok(None),
        width => Ok(width),
    }
}

/// The parts of a text between the places of a character.
fn parts_between(alloc: Global, text: &[char], separator: char) -> Result<Vec<&[char]>, AllocError>
    ensures { IfOk result (λ parts. map (λ part. part.now) parts.items ≡ slice_split (λ c. c == separator) text.now) }
{
    let mut parts = Vec::new(alloc);
    for part in text.split(|c| *c == separator) {
        parts.push(part)?;
    }
    Ok(parts)
}

/// The widths that texts are, if each is one.
fn widths_among(alloc: Global, parts: &[&[char]]) -> Result<Option<Vec<u64>>, AllocError>
    ensures { IfOk result (λ widths. option_map (λ v. v.items) widths ≡ spec.widths_among (map (λ part. part.now) parts.now)) }
{
    let mut widths = Vec::new(alloc);
    for part in parts {
        let Some(width) = width_of(alloc, part)? else {
            return Ok(None);
        };
        widths.push(width)?;
    }
    Ok(Some(widths))
}

/// The widths in a text whose runs of white are one space each: parted by commas, or by spaces if there is no comma.
#[tactic(auto, unfolding(crate::specs::Widths::widths_in))]
fn widths_in(alloc: Global, text: &[char]) -> Result<Option<Vec<u64>>, AllocError>
    ensures { IfOk result (λ widths. option_map (λ v. v.items) widths ≡ spec.widths_in text.now) }
{
    let separator = if has_character(text, ',') { ',' } else { ' ' };
    let parts = parts_between(alloc, text, separator)?;
    widths_among(alloc, &parts)
}

/// The widths that a value asks for: the word for those that the content takes, that for those that are drawn where `drawn`, or numbers.
#[tactic(auto, unfolding(crate::specs::Widths::columns_of))]
pub(crate) fn widths_of(
    alloc: Global,
    drawn: bool,
    text: &[char],
) -> Result<Option<Widths>, AllocError>
    ensures { IfOk result (λ widths. option_map spec.columns_in widths ≡ spec.columns_of drawn text.now) }
{
    if is_word(text, "auto", true) {
        return Ok(Some(Widths::Auto));
    }
    if drawn && is_word(text, "grid", true) {
        return Ok(Some(Widths::Drawn));
    }
    let text = text_from(alloc, text)?;
    let text = normalized_white(alloc, text.as_str())?;
    let text = characters_of(alloc, text.as_str())?;
    Ok(widths_in(alloc, &text)?.map(|widths| Widths::Given(widths)))
}
