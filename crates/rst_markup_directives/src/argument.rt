//! The arguments of directives.
ghost use Rattle.std.specs.Prelude.{◌≡◌, Ok, IfOk};
ghost use Rattle.rst_text.specs.Characters.{without_white};
ghost use Rattle.rst_text.specs.Names.{name_of, normalized_white};
ghost use Rattle.rst_markup_directives.specs.Argument as spec;
ghost use Rattle.rst_markup_directives.specs.Lines.{joined_nonempty, texts_of};
ghost use Rattle.rst_markup_directives.specs.Value as values;

use super::characters::{has_character, text_from};
use super::fault::Detail;
use super::kind::ArgumentKind;
use super::options::joined_nonempty;
use super::value::ids_of;
use rst_markup_blocks::Part;
use rst_text::{characters_of, name_of, normalized_white, without_white};
use std::alloc::{AllocError, Global};

/// The argument of a directive.
#[derive(Debug, Drop)]
pub enum Argument {
    /// There is none.
    Absent,
    /// The lines of the title.
    Title(Part),
    /// The URI, without white characters.
    Uri(String),
    /// The language of program code, one word, if one is named.
    Language(Option<String>),
    /// The formats that raw data is for, in small letters, with one space between two of them.
    Formats(String),
    /// Class names, and the ids of their words, if each has one.
    Classes {
        text: String,
        ids: Option<Vec<String>>,
    },
}

/// The argument of a kind that some lines of a directive are, or what is wrong with it. `part` is where the lines are.
pub(crate) fn argument_of(
    alloc: Global,
    kind: ArgumentKind,
    lines: &[&str],
    part: Part,
) -> Result<Result<Argument, Detail>, AllocError>
    ensures { IfOk result (λ argument. spec.argument_in argument ≡ spec.argument_of kind (texts_of lines.now) part) }
{
    match (kind, lines) {
        (ArgumentKind::Absent, _) => Ok(Ok(Argument::Absent)),
        (ArgumentKind::Language, []) => Ok(Ok(Argument::Language(None))),
        (ArgumentKind::OptionalTitle | ArgumentKind::OptionalClasses, []) => Ok(Ok(
            Argument::Absent,
        )),
        (_, []) => Ok(Err(Detail::NoArgument)),
        (ArgumentKind::Title | ArgumentKind::OptionalTitle, _) => Ok(Ok(Argument::Title(part))),
        (ArgumentKind::Uri, _) => uri_of(alloc, lines),
        (ArgumentKind::Language, _) => language_of(alloc, lines),
        (ArgumentKind::Formats, _) => formats_of(alloc, lines),
        (ArgumentKind::Classes | ArgumentKind::OptionalClasses, _) => {
            Ok(Ok(classes_of(alloc, lines)?))
        }
    }
}

/// A URI, without white characters.
#[tactic(auto, using(crate::proofs::Joins::joined_alone))]
fn uri_of(alloc: Global, lines: &[&str]) -> Result<Result<Argument, Detail>, AllocError>
    ensures { IfOk result (λ argument. spec.argument_in argument ≡ Ok (spec.uri (without_white (joined_nonempty (texts_of lines.now))))) }
{
    let text = joined_nonempty(alloc, Vec::new(alloc), lines, 0)?;
    let uri = without_white(alloc, &text)?;
    let uri = text_from(alloc, &uri)?;
    Ok(Ok(Argument::Uri(uri)))
}

/// A language, if the lines hold a single word: one space is left between two words.
#[tactic(auto, using(crate::proofs::Joins::joined_alone), unfolding(crate::specs::Argument::word_of))]
fn language_of(alloc: Global, lines: &[&str]) -> Result<Result<Argument, Detail>, AllocError>
    ensures { IfOk result (λ argument. spec.argument_in argument ≡ spec.word_of (normalized_white (joined_nonempty (texts_of lines.now)))) }
{
    let text = joined_nonempty(alloc, Vec::new(alloc), lines, 0)?;
    let text = text_from(alloc, &text)?;
    let words = normalized_white(alloc, text.as_str())?;
    let characters = characters_of(alloc, words.as_str())?;
    if has_character(&characters, ' ') {
        return Ok(Err(Detail::ManyArguments));
    }
    Ok(Ok(Argument::Language(Some(words))))
}

/// Formats, in small letters, with one space between two of them.
#[tactic(auto, using(crate::proofs::Joins::joined_alone))]
fn formats_of(alloc: Global, lines: &[&str]) -> Result<Result<Argument, Detail>, AllocError>
    ensures { IfOk result (λ argument. spec.argument_in argument ≡ Ok (spec.formats (name_of (joined_nonempty (texts_of lines.now))))) }
{
    let text = joined_nonempty(alloc, Vec::new(alloc), lines, 0)?;
    let text = text_from(alloc, &text)?;
    Ok(Ok(Argument::Formats(name_of(alloc, text.as_str())?)))
}

/// Class names, and the ids of their words, if each has one.
#[tactic(auto, using(crate::proofs::Joins::joined_alone))]
fn classes_of(alloc: Global, lines: &[&str]) -> Result<Argument, AllocError>
    ensures { IfOk result (λ argument. let text = joined_nonempty (texts_of lines.now) in
        spec.given_in argument ≡ spec.classes text (values.ids_of text)) }
{
    let text = joined_nonempty(alloc, Vec::new(alloc), lines, 0)?;
    let ids = ids_of(alloc, &text)?;
    let text = text_from(alloc, &text)?;
    Ok(Argument::Classes { text, ids })
}
