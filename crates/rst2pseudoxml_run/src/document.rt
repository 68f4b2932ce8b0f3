//! The document that an input is, and its messages.
ghost use Rattle.std.specs.Prelude.{◌≡◌, ◌≤◌, length, IfOk, Some, string_bytes};
ghost use Rattle.std.specs.Str.{chars};
ghost use Rattle.rst_settings.specs.Profile.{profile_of};
ghost use Rattle.rst2pseudoxml_run.specs.Reading as spec;

use crate::end::End;
use crate::marks::parts_in;
use itoa::Buffer;
use rst_block::{BlockFault, Parsed, parse};
use rst_block_nodes::message;
use rst_settings::Settings;
use rst_text::{LineFault, Lines, TextFault, text_in};
use rst_transform::{Finished, finish};
use rst_tree::{Attrs, Children, Level, Node, Tag};
use std::alloc::{AllocError, Global};

/// The finished document of the bytes, or why they are refused.
pub fn document_of(alloc: Global, settings: &Settings, bytes: Vec<u8>) -> Result<Finished, End>
    requires few { length bytes.items ≤ 16777216 }
    ensures { spec.Reads (profile_of settings.now) settings.now bytes.items result }
{
    let (parsed, held) = parsed_of(alloc, settings, bytes)?;
    match finish(alloc, parsed, &held) {
        Ok(finished) => Ok(finished),
        Err(_) => Err(End::NoMemory),
    }
}

/// What is read of the bytes, and the settings with the parts that hold in their text: if a line of it is too long, the document has only
/// a message on that.
pub fn parsed_of(
    alloc: Global,
    settings: &Settings,
    bytes: Vec<u8>,
) -> Result<(Parsed, Settings), End>
    requires few { length bytes.items ≤ 16777216 }
    ensures { spec.Parses (profile_of settings.now) settings.now bytes.items result }
{
    let text = match text_in(bytes.as_slice()) {
        Ok(text) => text,
        Err(TextFault::NotUtf8 { at }) => return Err(End::NotUtf8 { at }),
        Err(TextFault::NoMemory) => return Err(End::NoMemory),
    };
    let held = held_in(settings, text);
    let lines = match Lines::within(alloc, text, held.tab, held.limit, held.parts) {
        Ok(lines) => lines,
        Err(LineFault::TooLong { line }) => {
            return match long_line(alloc, line) {
                Ok(parsed) => Ok((parsed, held)),
                Err(_) => Err(End::NoMemory),
            };
        }
        Err(LineFault::NoMemory) => return Err(End::NoMemory),
    };
    // Each form of the input is given up before the next is made, so that memory holds few at once.
    drop(bytes);
    match parse(alloc, &lines) {
        Ok(parsed) => Ok((parsed, held)),
        Err(BlockFault::TooDeep { line }) => Err(End::TooDeep { line }),
        Err(BlockFault::NoMemory) => Err(End::NoMemory),
    }
}

/// The settings with the parts that hold in a text.
fn held_in(settings: &Settings, text: &str) -> Settings
    ensures { result ≡ spec.held settings.now (Some (chars text.now)) }
{
    let mut held = *settings;
    held.parts = parts_in(settings.parts, text);
    held
}

/// The message text on a line that is too long.
fn long_text(alloc: Global, line: usize) -> Result<String, AllocError>
    ensures { IfOk result (λ text. string_bytes text ≡ spec.long_text line) }
{
    let mut buffer = Buffer::new();
    let mut text = String::from_str(alloc, "Line ")?;
    text.push_str(buffer.format(line))?;
    text.push_str(" exceeds the line-length-limit.")?;
    Ok(text)
}

/// The document of lines of which the one with this number is too long: the message on that (Configuration,
/// `line_length_limit`).
fn long_line(alloc: Global, line: usize) -> Result<Parsed, AllocError>
    ensures tree { IfOk result (λ parsed. parsed.tree ≡ spec.long_document line) }
    ensures messages { IfOk result (λ parsed. parsed.messages ≡ 0) }
{
    let text = long_text(alloc, line)?;
    let mut children = Children::new(alloc);
    children.push(message(alloc, Level::Error, line, text.as_str(), None)?)?;
    let root = Node::Element {
        tag: Tag::Document,
        attrs: Attrs::new(alloc),
        children,
        line: 0,
    };
    Parsed::of(alloc, root)
}
