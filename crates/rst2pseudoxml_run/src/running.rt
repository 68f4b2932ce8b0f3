//! A run from a reader to two writers.
ghost use Rattle.std.specs.Prelude.{◌≡◌, ◌≤◌, ℕ, false, List, option_map, unwrap_or, IfOk};
ghost use Rattle.rst_settings.specs.Profile.{profile_of};
ghost use Rattle.rst_text.specs.Counted.{inner_of, has_failed, between, IsSent};
ghost use Rattle.rst_transform_messages.specs.Messages.{highest_level};
ghost use Rattle.rst2pseudoxml_run.specs.Headline.{Headline, Shows, ReadsOn, IsQuiet};
ghost use Rattle.rst_tree.specs.Faults.{Prints};
ghost use Rattle.rst2pseudoxml_options.specs.declared.format.Format.TheVariants.{PseudoXml};
ghost use Rattle.rst2pseudoxml_run.specs.RunResult.{parts_of, printed, result_of, IsMadeAs};

use crate::document::document_of;
use crate::end::End;
use crate::error_text::{error_text, halting, status_of};
use crate::input::read_input;
use rst_json::put_node;
use rst_settings::Settings;
use rst_text::{Counted, ReadCall, WriteCall};
use rst_transform::Finished;
use rst_tree::{PrintFault, Tree, print_with_source};
use rst2pseudoxml_options::Format;
use std::alloc::{AllocError, Global};
use std::mem;

/// Reads the input to its end and writes what the program prints for it: all of standard error, then standard output.
///
/// Where the input is refused nothing is written. After a failed write the writer has the prefix of its part that it
/// had taken, each byte once, and standard output has nothing if standard error failed. No read is made once more than
/// 16,777,216 bytes have come. No write is of an empty text, and none follows one that failed.
pub fn run<R: ReadCall, O: WriteCall, E: WriteCall>(
    alloc: Global,
    settings: &Settings,
    format: Format,
    source: &str,
    input: &mut Counted<R>,
    out: &mut Counted<O>,
    err: &mut Counted<E>,
) -> End
    requires input { has_failed input.old ≡ false }
    requires out { has_failed out.old ≡ false }
    requires err { has_failed err.old ≡ false }

    ensures headline { Headline (result_of format (profile_of settings.now) settings.now source.now)
        (between R.remaining input.old input.new)
        (between O.contents out.old out.new)
        (between E.contents err.old err.new) result }
    ensures reads { ReadsOn R.call_gives 0 (inner_of input.old) (inner_of input.new) }
    ensures out { (text : List ℕ) × IsSent O.call_takes O.contents out.old out.new text }
    ensures err { (text : List ℕ) × IsSent E.call_takes E.contents err.old err.new text }
    ensures quiet { IsQuiet result (out.new ≡ out.old) (err.new ≡ err.old) }
{
    let bytes = match read_input(alloc, input) {
        Ok(bytes) => bytes,
        Err(end) => return end,
    };
    let document = document_of(alloc, settings, bytes);
    match document {
        Ok(finished) => {
            let end = show(alloc, settings, format, source, &finished, out, err);
            // A run is the last that a process does: its memory goes back as a whole, not node by node.
            mem::forget(finished);
            end
        }
        Err(end) => end,
    }
}

/// Writes what the program prints of a finished document: all of standard error, then standard output.
///
/// The messages are gathered before the first write, and JSON is made, so where memory runs out nothing was written. Pseudo-XML needs
/// no memory: it is printed as it is written.
pub fn show<O: WriteCall, E: WriteCall>(
    alloc: Global,
    settings: &Settings,
    format: Format,
    source: &str,
    finished: &Finished,
    out: &mut Counted<O>,
    err: &mut Counted<E>,
) -> End
    requires highest { finished.now.highest ≡ highest_level finished.now.notes.items }
    requires few { finished.now.highest ≤ 4 }
    requires out { has_failed out.old ≡ false }
    requires err { has_failed err.old ≡ false }
    ensures shows { Shows (parts_of format settings.now source.now finished.now.tree finished.now.notes.items)
        (between O.contents out.old out.new)
        (between E.contents err.old err.new) result }
    ensures out { (text : List ℕ) × IsSent O.call_takes O.contents out.old out.new text }
    ensures err { (text : List ℕ) × IsSent E.call_takes E.contents err.old err.new text }
    ensures quiet { IsQuiet result (out.new ≡ out.old) (err.new ≡ err.old) }
{
    let notes = finished.notes.as_slice();
    let messages = match error_text(alloc, notes, settings, source) {
        Ok(messages) => messages,
        Err(_) => return End::NoMemory,
    };
    let made = match made_as(alloc, format, &finished.tree) {
        Ok(made) => made,
        Err(_) => return End::NoMemory,
    };
    if let Err(done) = err.write_all(messages.inner().as_slice()) {
        return End::WriteErr { done };
    }
    if halting(notes, settings).is_some() {
        return End::Done(1);
    }
    match write_document(&finished.tree, source, &made, out) {
        Ok(()) => End::Done(status_of(finished.highest, settings)),
        Err(PrintFault::Write { done }) => End::WriteOut { done },
    }
}

/// The text of a document that is made before it is written: as JSON, and not as pseudo-XML.
fn made_as(alloc: Global, format: Format, document: &Tree) -> Result<Option<Vec<u8>>, AllocError>
    ensures { IfOk result (IsMadeAs format document.now) }
{
    match format {
        Format::PseudoXml => Ok(None),
        Format::Json => {
            let mut text = Vec::new(alloc);
            put_node(alloc, document.root(), false, &mut text)?;
            text.push(b'\n')?;
            Ok(Some(text))
        }
    }
}

/// Writes the text that was made of a document, or prints it as pseudo-XML.
fn write_document<O: WriteCall>(
    document: &Tree,
    source: &str,
    made: &Option<Vec<u8>>,
    out: &mut Counted<O>,
) -> Result<(), PrintFault>
    requires { has_failed out.old ≡ false }
    ensures prints { let text = unwrap_or (option_map (λ text. text.items) made.now) (printed PseudoXml source.now document.now) in
        Prints (between O.contents out.old out.new) text result }
    ensures calls { let text = unwrap_or (option_map (λ text. text.items) made.now) (printed PseudoXml source.now document.now) in
        IsSent O.call_takes O.contents out.old out.new text }
{
    let Some(text) = made else {
        return print_with_source(document, source, out);
    };
    match out.write_all(text.as_slice()) {
        Ok(()) => Ok(()),
        Err(done) => Err(PrintFault::Write { done }),
    }
}
