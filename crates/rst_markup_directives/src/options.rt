//! The options of a directive's block.
ghost use Rattle.std.specs.Prelude.{◌≡◌, ◌+◌, ◌≤◌, ◌<◌, ◌∷◌, length, map, drop, slice_range, IfOk, option_map, chars};
ghost use Rattle.std.specs.List.{prefix_len};
ghost use Rattle.rst_markup_lines.specs.TextStart as text_start;
ghost use Rattle.rst_markup_directives.specs.Lines.{joined_nonempty, texts_of};
ghost use Rattle.rst_markup_directives.specs.Options as spec;

use super::characters::{is_same_word, text_from};
use super::fault::Detail;
use super::kind::OptionSet;
use super::lines::add_line;
use super::option::OptionName;
use super::value::{OptionValue, option_value};
use rst_markup_lines::{Characters, begins_with, field_of};
use rst_settings::Parts;
use rst_text::{characters_of, indentation, skip};
use std::alloc::{AllocError, Global};

/// An option of a directive, with its value.
#[derive(Debug, Drop)]
pub struct Setting {
    pub option: OptionName,
    pub value: OptionValue,
}

/// A field among the options: its name as it is written, and its lines joined by line feeds.
#[derive(Drop)]
pub(crate) struct Field {
    pub name: Vec<char>,
    pub value: Vec<char>,
}

/// How many of some lines at the front begin with a space.
fn deep_len(run: &[&str]) -> usize
    ensures value { result ≡ prefix_len (text_start.begins_with 32) (texts_of run.now) }
    ensures within { result ≤ length run.now }
{
    for (i, line) in run.iter().enumerate() {
        if !begins_with(' ', line) {
            return i;
        }
    }
    run.len()
}

/// The least indentation of some lines.
fn least_indentation(lines: &[&str]) -> usize
    ensures { result ≡ spec.least_indentation (texts_of lines.now) }
{
    let Some(first) = lines.first() else {
        return 0;
    };
    let mut least = indentation(first);
    for line in lines {
        least = least.min(indentation(line));
    }
    least
}

/// A text and some lines without their first characters, as many as `cut`, joined by line feeds, empty ones left out.
#[tactic(auto, using(crate::proofs::Joins::joined_onto))]
pub(crate) fn joined_nonempty(
    alloc: Global,
    first: Vec<char>,
    lines: &[&str],
    cut: usize,
) -> Result<Vec<char>, AllocError>
    ensures { IfOk result (λ text. text.items ≡ joined_nonempty (first.items ∷ map (drop cut) (texts_of lines.now))) }
{
    let mut text = first;
    for line in lines {
        let rest = characters_of(alloc, skip(line, cut))?;
        add_line(&mut text, &rest)?;
    }
    Ok(text)
}

/// The characters of a text from one place up to another.
pub(crate) fn excerpt(
    alloc: Global,
    text: &str,
    places: Characters,
) -> Result<Vec<char>, AllocError>
    ensures { IfOk result (λ part. part.items ≡ slice_range (chars text.now) places.from places.to) }
{
    let mut part = characters_of(alloc, skip(text, places.from))?;
    part.truncate(places.to.saturating_sub(places.from));
    Ok(part)
}

/// The fields of some lines, of which none is blank; or none where a line neither begins a field nor is indented below
/// one.
pub(crate) fn fields_of(
    alloc: Global,
    parts: &Parts,
    run: &[&str],
) -> Result<Option<Vec<Field>>, AllocError>
    ensures { IfOk result (λ fields. option_map (λ v. spec.field_texts v.items) fields ≡ spec.fields_in parts.now (texts_of run.now)) }
{
    let mut fields = Vec::new(alloc);
    let mut i = 0;
    while i < run.len() {
        let following = &run[i + 1..];
        let deep = deep_len(following);
        let below = &following[..deep];
        let Some(mark) = field_of(parts, run[i]) else {
            return Ok(None);
        };
        let name = excerpt(alloc, run[i], mark.name)?;
        let first = characters_of(alloc, skip(run[i], mark.marker.cut))?;
        let value = joined_nonempty(alloc, first, below, least_indentation(below))?;
        fields.push(Field { name, value })?;
        i += 1 + deep;
    }
    Ok(Some(fields))
}

/// The settings that fields are, of a directive with these options, or what is wrong: of all fields, an unknown option,
/// then a duplicate one, then a wrong value.
#[tactic(auto, unfolding(crate::specs::Options::settings_in))]
pub(crate) fn settings_of(
    alloc: Global,
    options: OptionSet,
    fields: &[Field],
) -> Result<Result<Vec<Setting>, Detail>, AllocError>
    ensures { IfOk result (λ settings. spec.choices_or_fault settings ≡ spec.settings_in options (spec.field_texts fields.now)) }
{
    for field in fields {
        let option = OptionName::of(&field.name);
        if !option.is_some_and(|option| options.has(option)) {
            let name = text_from(alloc, &field.name)?;
            return Ok(Err(Detail::UnknownOption(name)));
        }
    }
    for i in 0..fields.len() {
        let name = fields[i].name.as_slice();
        for before in &fields[..i] {
            if is_same_word(&before.name, name) {
                let name = text_from(alloc, name)?;
                return Ok(Err(Detail::DuplicateOption(name)));
            }
        }
    }
    let mut settings = Vec::new(alloc);
    for choice in fields {
        if let Some(option) = OptionName::of(&choice.name)
            && let Some(value) = option_value(alloc, options, option, &choice.value)?
        {
            settings.push(Setting { option, value })?;
            continue;
        }
        let name = text_from(alloc, &choice.name)?;
        return Ok(Err(Detail::InvalidValue(name)));
    }
    Ok(Ok(settings))
}
