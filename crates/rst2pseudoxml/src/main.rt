//! Reads reStructuredText and prints its document tree as indented pseudo-XML.
#![tactic(auto)]

ghost use Rattle.std.specs.Prelude.{◌≡◌, false};
ghost use Rattle.rst_text.specs.Counted.{has_failed};

use rst_text::Counted;
use rst2pseudoxml_options::{Format, options};
use rst2pseudoxml_run::{Stop, report, run_over, words};
use std::io::Write;
use std::process::ExitCode;

fn main(rt: HostRuntime) -> ExitCode {
    let mut err = Counted::of(rt.stderr());
    let stop = started(&rt, &mut err);
    ExitCode::from(report("rst2pseudoxml", &stop, &mut err))
}

/// Runs over the file that the argument words name, or over standard input.
fn started<E: Write>(rt: &HostRuntime, err: &mut Counted<E>) -> Stop
    requires { has_failed err.old ≡ false }
{
    let words = match words(rt) {
        Ok(words) => words,
        Err(stop) => return stop,
    };
    match options(rt.alloc(), words.as_slice()) {
        Ok((settings, source)) => run_over(rt, &settings, Format::PseudoXml, source, err),
        Err(fault) => Stop::Options(fault),
    }
}

#[cfg(test)]
mod large_tests;
#[cfg(test)]
mod rows;
#[cfg(test)]
mod rows_bodies;
#[cfg(test)]
mod rows_directives;
#[cfg(test)]
mod rows_inline;
#[cfg(test)]
mod rows_references;
#[cfg(test)]
mod rows_tables;
#[cfg(test)]
mod rows_titles;
#[cfg(test)]
mod stream_tests;
#[cfg(test)]
mod tests;
#[cfg(test)]
mod whole_document;
