//! Reads reStructuredText by a profile and prints its document tree as pseudo-XML or as JSON.
#![tactic(auto)]

ghost use Rattle.std.specs.Prelude.{◌≡◌, false};
ghost use Rattle.rst_text.specs.Counted.{has_failed};

use clap::Error;
use rst_text::Counted;
use rst2pseudoxml_options::{OptionFault, tree_options};
use rst2pseudoxml_run::{End, Stop, report, run_over, words};
use std::alloc::{AllocError, Global};
use std::io::Write;
use std::process::ExitCode;

fn main(rt: HostRuntime) -> ExitCode {
    let mut err = Counted::of(rt.stderr());
    let stop = started(&rt, &mut err);
    ExitCode::from(report("rst-tree", &stop, &mut err))
}

/// Runs over the file that the argument words name, or over standard input; or prints the help or the version that they ask for.
fn started<E: Write>(rt: &HostRuntime, err: &mut Counted<E>) -> Stop
    requires { has_failed err.old ≡ false }
{
    let words = match words(rt) {
        Ok(words) => words,
        Err(stop) => return stop,
    };
    match tree_options(rt.alloc(), words.as_slice()) {
        Ok((settings, format, source)) => run_over(rt, &settings, format, source, err),
        Err(error) => match answer(rt, &error) {
            Ok(stop) => stop,
            Err(_) => Stop::Options(OptionFault::NoMemory),
        },
    }
}

/// Prints the help or the version, or has a refusal reported in one line.
// What the text takes is off the stack while a document is read.
#[inline(never)]
fn answer(rt: &HostRuntime, error: &Error) -> Result<Stop, AllocError> {
    let text = format!(in rt.alloc(); "{error}")?;
    if error.use_stderr() {
        return Ok(Stop::Refused(one_line(rt.alloc(), text.as_str())?));
    }
    let mut out = Counted::of(rt.stdout());
    match out.write_all(text.as_bytes()) {
        Ok(()) => Ok(Stop::Ran(End::Done(0))),
        Err(done) => Ok(Stop::Ran(End::WriteOut { done })),
    }
}

/// What is wrong, which is the first paragraph of the text, and what is allowed, which is on its second line. A word that only says that
/// it is an error is left out.
fn one_line(alloc: Global, text: &str) -> Result<String, AllocError> {
    let mut line = String::new(alloc);
    let text = text.strip_prefix("error: ").unwrap_or(text);
    for part in text.split('\n') {
        if part.is_empty() {
            break;
        }
        line.push_str(part)?;
    }
    Ok(line)
}
