//! The argument words of `rst-tree`: the settings and the format that they choose, and the source.
ghost use Rattle.std.specs.Prelude.{◌≡◌, map, option_map, string_bytes};
ghost use Rattle.clap.specs.Words.{found_of, rows_of};
ghost use Rattle.rst2pseudoxml_options.specs.Tree.{file_of, format_of, parts_of_profile, refusal_of, ChoosesTree};

use crate::choice::choice_of;
use crate::fault::OptionFault;
use crate::format::Format;
use crate::found::text_of;
use crate::tree_command::tree_command;
use clap::error::ErrorKind;
use clap::{ArgMatches, Error};
use rst_settings::{Parts, Settings};
use std::alloc::Global;

/// The settings and the format that the words of `rst-tree` choose, and SOURCE as written, if they name a file; or the help, the version or the
/// refusal that `clap` has for them. The words are those after the program's name.
// What the description of the options takes is off the stack while a document is read.
#[inline(never)]
pub fn tree_options(
    alloc: Global,
    words: &[String],
) -> Result<(Settings, Format, Option<String>), Error>
    ensures { ChoosesTree (map string_bytes words.now) result }
{
    let mut command = tree_command(alloc)?;
    let matches = command.try_get_matches_from_mut(words)?;
    let mut settings = match choice_of(&matches) {
        Ok(settings) => settings,
        Err(fault) => {
            let (kind, text) = refusal_of(fault);
            return Err(command.error(kind, text)?);
        }
    };
    settings.parts = parts_of_profile(&matches);
    let source = match file_of(&matches) {
        Some(name) => Some(String::from_str(alloc, name)?),
        None => None,
    };
    Ok((settings, format_of(&matches), source))
}

/// The kind and the text of a fault that `clap` doesn't know.
fn refusal_of(fault: OptionFault) -> (ErrorKind, &'static str)
    ensures { result.0 ≡ refusal_of fault }
{
    match fault {
        OptionFault::TwoLevels => (
            ErrorKind::ArgumentConflict,
            "only one of '--report', '--verbose' and '--quiet' can be used, and only one of '--halt' and '--strict'",
        ),
        _ => (
            ErrorKind::ValueValidation,
            "a number has no sign and no leading zero",
        ),
    }
}

/// The parts of the wider profile that are asked for.
fn parts_of_profile(matches: &ArgMatches<'_>) -> Parts
    ensures { result ≡ parts_of_profile (rows_of (found_of matches.now)) }
{
    match text_of(matches, "profile") {
        Some("base") => Parts::NONE,
        _ => Parts::ALL,
    }
}

/// The format of the tree.
fn format_of(matches: &ArgMatches<'_>) -> Format
    ensures { result ≡ format_of (rows_of (found_of matches.now)) }
{
    match text_of(matches, "format") {
        Some("json") => Format::Json,
        _ => Format::PseudoXml,
    }
}

/// SOURCE, unless it stands for standard input.
fn file_of<'a>(matches: &ArgMatches<'a>) -> Option<&'a str>
    ensures { option_map (λ s. s.now) result ≡ file_of (rows_of (found_of matches.now)) }
{
    match text_of(matches, "source") {
        Some("-") => None,
        source => source,
    }
}
