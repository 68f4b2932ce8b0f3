//! The line by which a fault is reported.
ghost use Rattle.std.specs.Prelude.{◌≡◌, ◌++◌, flat_map};
ghost use Rattle.rst_text.specs.Counted.{IsSent};
ghost use Rattle.rst2pseudoxml_run.specs.Report.{fault_line_of, status_of, option_message, fault_line};

use crate::end::End;
use itoa::Buffer;
use rst_text::{Counted, WriteCall};
use rst2pseudoxml_options::OptionFault;

/// What stops the program.
#[derive(Debug, Drop)]
pub enum Stop {
    /// An argument word is no UTF-8.
    Words,
    /// The argument words choose no settings.
    Options(OptionFault),
    /// The argument words are refused in these words.
    Refused(String),
    /// The source, as written, can't be opened.
    Open(String),
    /// A run came to its end.
    Ran(End),
}

/// Writes the fault's line, reported by the program of a name, to standard error, nothing for a run that is done, and gives the exit status.
///
/// It stops at the first write that fails; the status stays the same.
pub fn report<E: WriteCall>(by: &str, stop: &Stop, err: &mut Counted<E>) -> u8
    ensures line { IsSent E.call_takes E.contents err.old err.new (fault_line_of by.now stop.now) }
    ensures status { result ≡ status_of stop.now }
{
    match stop {
        Stop::Words => {
            say(by, "bad arguments", err);
            2
        }
        Stop::Options(fault) => {
            say(by, option_message(*fault), err);
            2
        }
        Stop::Refused(words) => {
            say(by, words.as_str(), err);
            2
        }
        Stop::Open(source) => {
            say_of(by, "cannot open ", source.as_str(), "", err);
            1
        }
        Stop::Ran(End::Done(status)) => *status,
        Stop::Ran(end) => {
            let mut buffer = Buffer::new();
            match end {
                End::Done(_) => {}
                End::Read => say(by, "read failed", err),
                End::TooLong => say(by, "input too long", err),
                End::NotUtf8 { at } => {
                    say_of(by, "not UTF-8 at byte ", buffer.format(*at), "", err);
                }
                End::NoMemory => say(by, "out of memory", err),
                End::WriteErr { .. } => say(by, "write failed", err),
                End::WriteOut { .. } => say(by, "write failed", err),
                End::TooDeep { line } => {
                    say_of(by, "line ", buffer.format(*line), ": nesting too deep", err);
                }
            }
            1
        }
    }
}

/// The error text on argument words.
fn option_message(fault: OptionFault) -> &'static str
    ensures { result.now ≡ option_message fault }
{
    match fault {
        OptionFault::Usage => "bad arguments",
        OptionFault::BadLevel => "bad level",
        OptionFault::BadTab => "bad tab width",
        OptionFault::BadLimit => "bad line limit",
        OptionFault::TwoLevels => "two levels",
        OptionFault::NoMemory => "out of memory",
    }
}

/// Writes a fault's line.
fn say<'a, E: WriteCall>(by: &'a str, message: &'a str, err: &mut Counted<E>)
    ensures { IsSent E.call_takes E.contents err.old err.new (fault_line by.now message.now) }
{
    write_pieces(&[by, ": ", message, "\n"], err);
}

/// Writes a fault's line that names something.
fn say_of<'a, E: WriteCall>(
    by: &'a str,
    before: &'a str,
    named: &'a str,
    after: &'a str,
    err: &mut Counted<E>,
)
    ensures { IsSent E.call_takes E.contents err.old err.new (fault_line by.now (before.now ++ named.now ++ after.now)) }
{
    write_pieces(&[by, ": ", before, named, after, "\n"], err);
}

/// Writes the pieces, up to the first that fails.
fn write_pieces<E: WriteCall>(pieces: &[&str], err: &mut Counted<E>)
    ensures { IsSent E.call_takes E.contents err.old err.new (flat_map (λ piece. piece.now) pieces.now) }
{
    for piece in pieces {
        if let Err(_) = err.write_all(piece.as_bytes()) {
            return;
        }
    }
}
