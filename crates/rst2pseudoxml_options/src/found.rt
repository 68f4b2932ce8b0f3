//! What `clap` finds in the words.
ghost use Rattle.std.specs.Prelude.{◌≡◌, map, option_map, string_bytes};
ghost use Rattle.clap.specs.Words.{first_of, found_of, rows_of};
ghost use Rattle.rst2pseudoxml_options.specs.Command.{is_on, Finds};

use super::command::program;
use clap::{ArgMatches, Error};
use std::alloc::Global;

/// The matches of the words, or why `clap` refuses them.
pub fn matches_of(alloc: Global, words: &[String]) -> Result<ArgMatches<'_>, Error>
    ensures { Finds (map string_bytes words.now) result }
{
    program(alloc)?.try_get_matches_from(words)
}

/// The value of an option, or SOURCE, if it is given.
pub fn text_of<'a>(matches: &ArgMatches<'a>, name: &str) -> Option<&'a str>
    ensures { option_map (λ s. s.now) result ≡ first_of name.now (rows_of (found_of matches.now)) }
{
    matches.get_str(name)
}

/// Whether a flag is given.
pub fn is_on(matches: &ArgMatches<'_>, name: &str) -> bool
    ensures { result ≡ is_on name.now (rows_of (found_of matches.now)) }
{
    match text_of(matches, name) {
        Some(text) => text == "true",
        None => false,
    }
}
