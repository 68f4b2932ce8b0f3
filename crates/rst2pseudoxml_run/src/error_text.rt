//! The text for standard error: the messages that are reported.
ghost use Rattle.std.specs.Prelude.{◌≡◌, ◌≤◌, Some, IfOk, string_bytes};
ghost use Rattle.rst2pseudoxml_run.specs.RunResult as spec;

use crate::end::End;
use itoa::Buffer;
use rst_settings::Settings;
use rst_text::Counted;
use rst_tree::{Level, Note, message_line};
use std::alloc::{AllocError, Global};

/// The level of the message that halts a run, if one does: the last.
pub fn halting(notes: &[Note], settings: &Settings) -> Option<Level>
    ensures { result ≡ spec.halting settings.now notes.now }
{
    let Some(note) = notes.last() else {
        return None;
    };
    if settings.halt.is_reached(note.level.number()) {
        Some(note.level)
    } else {
        None
    }
}

/// Whether a message is reported.
pub fn is_reported(note: &Note, settings: &Settings) -> bool
    ensures { result ≡ spec.is_reported settings.now note.now }
{
    let level = note.level.number();
    settings.report.is_reached(level) || settings.halt.is_reached(level)
}

/// That a message halts the run.
fn exit_line(alloc: Global, level: Option<Level>) -> Result<String, AllocError>
    ensures { IfOk result (λ line. string_bytes line ≡ spec.exit_line level) }
{
    let Some(level) = level else {
        return Ok(String::new(alloc));
    };
    let mut buffer = Buffer::new();
    let mut line = String::from_str(alloc, "Exiting due to level-")?;
    line.push_str(buffer.format(level.number()))?;
    line.push_str(" (")?;
    line.push_str(level.name())?;
    line.push_str(") system message.\n")?;
    Ok(line)
}

/// About how many bytes the reported messages take, so that the list that holds them needn't grow.
fn room_for(notes: &[Note], settings: &Settings, source: &str) -> usize {
    let mut room = 0usize;
    for note in notes {
        if is_reported(note, settings) {
            let words = note.text.as_str().len();
            room = room.saturating_add(words.saturating_add(source.len()).saturating_add(24));
        }
    }
    room
}

/// The text for standard error: the messages at or above the report level, the one that halts the run, and that it does.
///
/// The only refusal is [`End::NoMemory`].
pub fn error_text(
    alloc: Global,
    notes: &[Note],
    settings: &Settings,
    source: &str,
) -> Result<Counted<Vec<u8>>, End>
    ensures { spec.MakesErrorText settings.now source.now notes.now result }
{
    let mut text = Counted::of(Vec::with_capacity(alloc, room_for(notes, settings, source))?);
    for note in notes {
        if !is_reported(note, settings) {
            continue;
        }
        if let Err(_) = message_line(note, source, &mut text) {
            return Err(End::NoMemory);
        }
    }
    let line = exit_line(alloc, halting(notes, settings))?;
    match text.write_all(line.as_bytes()) {
        Ok(()) => Ok(text),
        Err(_) => Err(End::NoMemory),
    }
}

/// The exit status of a run that isn't halted, where its gravest message has this level, by its number; 0 for none.
pub fn status_of(highest: u8, settings: &Settings) -> u8
    requires { highest ≤ 4 }
    ensures { result ≡ spec.status_by settings.now highest }
{
    if settings.exit.is_reached(highest) {
        10 + highest
    } else {
        0
    }
}
