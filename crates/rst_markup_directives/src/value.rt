//! The values of options.
ghost use Rattle.std.specs.Prelude.{◌≡◌, option_map, IfOk};
ghost use Rattle.rst_markup_directives.specs.Value as spec;

use super::characters::{is_empty_text, text_from};
use super::contents::{Backlinks, backlinks_of, depth_of};
use super::kind::OptionSet;
use super::measure::{Alignment, alignment_of, measure_of, scale_of};
use super::option::OptionName;
use super::target::{Target, target_value};
use super::widths::{Widths, widths_of};
use rst_markup_lines::is_blank as is_empty;
use rst_text::{id_of, is_white, name_of};
use std::alloc::{AllocError, Global};

/// What the value of an option means.
#[derive(Debug, Drop)]
pub enum OptionValue {
    /// The text of `alt`, `subtitle`, `file` and `url`, and of the options that `include` alone has.
    Text(String),
    /// The measure of `height`, `width` and `figwidth`.
    Measure(String),
    /// The number of `scale`, `depth`, `header-rows` and `stub-columns`; 1 for `local`, which has no value.
    Number(u64),
    /// The word of `align`.
    Place(Alignment),
    /// The ids of the words of `class` and `figclass`.
    Classes(Vec<String>),
    /// What `target` leads to, and the text that it is written with.
    Link { to: Target, source: String },
    /// The name of `name`, white runs being one space and case folded.
    Name(String),
    /// The word of `backlinks`.
    Backlinks(Backlinks),
    /// A word or the numbers of `widths`.
    Widths(Widths),
}

/// What the value of an option of a directive means, or none where the option can't have it.
pub(crate) fn option_value(
    alloc: Global,
    options: OptionSet,
    option: OptionName,
    value: &[char],
) -> Result<Option<OptionValue>, AllocError>
    ensures { IfOk result (λ meaning. option_map spec.meaning_of meaning ≡ spec.option_meaning options option value.now) }
{
    match option {
        OptionName::Alt | OptionName::Inclusion => {
            Ok(Some(OptionValue::Text(text_from(alloc, value)?)))
        }
        OptionName::Height | OptionName::Width | OptionName::FigureWidth => {
            let percent = option != OptionName::Height;
            let wanted = option == OptionName::FigureWidth;
            let measure = measure_of(alloc, value, percent, wanted)?;
            Ok(measure.map(|measure| OptionValue::Measure(measure)))
        }
        OptionName::Scale => Ok(scale_of(alloc, value)?.map(|number| OptionValue::Number(number))),
        OptionName::Align => {
            let vertical = options.has_vertical();
            Ok(alignment_of(value, vertical).map(|alignment| OptionValue::Place(alignment)))
        }
        OptionName::Class | OptionName::FigureClass => {
            Ok(ids_of(alloc, value)?.map(|ids| OptionValue::Classes(ids)))
        }
        OptionName::Target => {
            let source = text_from(alloc, value)?;
            let to = target_value(alloc, source.as_str())?;
            Ok(to.map(|to| OptionValue::Link { to, source }))
        }
        OptionName::Name => {
            let text = text_from(alloc, value)?;
            Ok(Some(OptionValue::Name(name_of(alloc, text.as_str())?)))
        }
        OptionName::Depth | OptionName::HeaderRows | OptionName::StubColumns => {
            Ok(depth_of(alloc, value)?.map(|number| OptionValue::Number(number)))
        }
        OptionName::Local if is_empty_text(value) => Ok(Some(OptionValue::Number(1))),
        OptionName::Local => Ok(None),
        OptionName::Backlinks => {
            Ok(backlinks_of(value).map(|backlinks| OptionValue::Backlinks(backlinks)))
        }
        OptionName::Widths => {
            let widths = widths_of(alloc, options.has_drawn(), value)?;
            Ok(widths.map(|widths| OptionValue::Widths(widths)))
        }
        OptionName::Subtitle | OptionName::File | OptionName::Url => {
            if is_empty_text(value) {
                return Ok(None);
            }
            Ok(Some(OptionValue::Text(text_from(alloc, value)?)))
        }
    }
}

/// The ids of the words of a text, where there are some and none of them is empty.
pub(crate) fn ids_of(alloc: Global, text: &[char]) -> Result<Option<Vec<String>>, AllocError>
    ensures { IfOk result (λ ids. option_map (λ v. spec.chars_of_texts v.items) ids ≡ spec.ids_of text.now) }
{
    let mut ids = Vec::new(alloc);
    for word in text
        .split(|c| is_white(*c))
        .filter(|word| !is_empty_text(*word))
    {
        let word = text_from(alloc, word)?;
        ids.push(id_of(alloc, word.as_str())?)?;
    }
    if ids.is_empty() {
        return Ok(None);
    }
    if ids.iter().any(|id| is_empty(id.as_str())) {
        return Ok(None);
    }
    Ok(Some(ids))
}
