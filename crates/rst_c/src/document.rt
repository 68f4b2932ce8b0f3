//! The document of a text, and what is made of it.
ghost use Rattle.std.specs.Prelude.{◌≡◌, ◌≤◌, IfOk, filter, map};
ghost use Rattle.rst_c.specs.Answers.{bytes_as, form_wanted, made_of, parse_wanted, parsed_bytes, print_wanted, Finds, FindsParsed, MakesWanted};
ghost use Rattle.rst_json.specs.Json.{json_array, json_note};
ghost use Rattle.rst_transform_messages.specs.Messages.{highest_level};
ghost use Rattle.rst2pseudoxml_run.specs.RunResult as run_result;

use crate::answer::{Made, Refusal};
use rst_json::{enclose, put_node, put_note, put_record};
use rst_settings::Settings;
use rst_text::Counted;
use rst_transform::Finished;
use rst_tree::Note;
use rst_tree_index::Parsed;
use rst2pseudoxml_options::Format;
use rst2pseudoxml_run::{End, document_of, halting, is_reported, parsed_of, show, status_of};
use std::alloc::{AllocError, Global};

/// What the program prints for a text.
pub fn printed(
    alloc: Global,
    text: &[u8],
    source: &[u8],
    settings: Option<Settings>,
) -> Result<Made, Refusal>
    ensures { MakesWanted (print_wanted settings source.now text.now) (made_of result) }
{
    let Some(settings) = settings else {
        return Err(Refusal::Options);
    };
    let Ok(source) = str::from_utf8(source) else {
        return Err(Refusal::Source);
    };
    let finished = finished_of(alloc, text, &settings)?;
    let mut tree = Counted::of(Vec::new(alloc));
    let mut messages = Counted::of(Vec::new(alloc));
    match show(
        alloc,
        &settings,
        Format::PseudoXml,
        source,
        &finished,
        &mut tree,
        &mut messages,
    ) {
        End::Done(status) => Ok(Made {
            tree,
            messages,
            status,
        }),
        _ => Err(Refusal::Text(End::NoMemory)),
    }
}

/// What a call makes of a finished document beside the printed one.
#[derive(Clone, Copy)]
pub enum Form {
    /// The document as JSON.
    DocumentJson,
    /// The document as records.
    DocumentRecords,
    /// The messages that are reported, as JSON.
    MessagesJson,
}

/// What a form gives for a text.
pub fn formed(
    alloc: Global,
    text: &[u8],
    settings: Option<Settings>,
    form: Form,
) -> Result<Made, Refusal>
    ensures { MakesWanted (form_wanted form settings text.now) (made_of result) }
{
    let Some(settings) = settings else {
        return Err(Refusal::Options);
    };
    let finished = finished_of(alloc, text, &settings)?;
    match bytes_as(alloc, &finished, &settings, form) {
        Ok(bytes) => Ok(Made {
            tree: Counted::of(bytes),
            messages: Counted::of(Vec::new(alloc)),
            status: ended_by(&finished, &settings),
        }),
        Err(_) => Err(Refusal::Text(End::NoMemory)),
    }
}

/// What is parsed of a text, as JSON or as records: the document before the transforms, with the attributes that serve them.
pub fn parsed(
    alloc: Global,
    text: &[u8],
    settings: Option<Settings>,
    records: bool,
) -> Result<Made, Refusal>
    ensures { MakesWanted (parse_wanted records settings text.now) (made_of result) }
{
    let Some(settings) = settings else {
        return Err(Refusal::Options);
    };
    let parsed = parsed_tree(alloc, text, &settings)?;
    match parsed_bytes(alloc, &parsed, records) {
        Ok(bytes) => Ok(Made {
            tree: Counted::of(bytes),
            messages: Counted::of(Vec::new(alloc)),
            status: 0,
        }),
        Err(_) => Err(Refusal::Text(End::NoMemory)),
    }
}

/// What is parsed of a text.
fn parsed_tree(alloc: Global, text: &[u8], settings: &Settings) -> Result<Parsed, End>
    ensures { FindsParsed settings.now text.now result }
{
    if text.len() <= 16_777_216 {
        let (parsed, _) = parsed_of(alloc, settings, Vec::from_slice(alloc, text)?)?;
        Ok(parsed)
    } else {
        Err(End::TooLong)
    }
}

/// The JSON or the records of what was parsed.
fn parsed_bytes(alloc: Global, parsed: &Parsed, records: bool) -> Result<Vec<u8>, AllocError>
    ensures { IfOk result (λ bytes. bytes.items ≡ parsed_bytes records parsed.now.tree) }
{
    let mut bytes = Vec::new(alloc);
    if records {
        put_record(alloc, parsed.tree.root(), true, &mut bytes)?;
    } else {
        put_node(alloc, parsed.tree.root(), true, &mut bytes)?;
    }
    Ok(bytes)
}

/// The bytes of a form.
fn bytes_as(
    alloc: Global,
    finished: &Finished,
    settings: &Settings,
    form: Form,
) -> Result<Vec<u8>, AllocError>
    ensures { IfOk result (λ bytes. bytes.items ≡ bytes_as form settings.now (finished.now.tree, finished.now.notes.items)) }
{
    let mut bytes = Vec::new(alloc);
    match form {
        Form::DocumentJson => {
            put_node(alloc, finished.tree.root(), false, &mut bytes)?;
            Ok(bytes)
        }
        Form::DocumentRecords => {
            put_record(alloc, finished.tree.root(), false, &mut bytes)?;
            Ok(bytes)
        }
        Form::MessagesJson => notes_json(alloc, finished.notes.as_slice(), settings),
    }
}

/// The finished document of a text. It is freed where the caller lets it go, other than in the program's own run.
fn finished_of(alloc: Global, text: &[u8], settings: &Settings) -> Result<Finished, End>
    ensures { Finds settings.now text.now result }
{
    if text.len() > 16_777_216 {
        return Err(End::TooLong);
    }
    document_of(alloc, settings, Vec::from_slice(alloc, text)?)
}

/// The messages that are reported as an array.
fn notes_json(alloc: Global, notes: &[Note], settings: &Settings) -> Result<Vec<u8>, AllocError>
    ensures { IfOk result (λ json. json.items ≡ json_array (map json_note (filter (run_result.is_reported settings.now) notes.now))) }
{
    let mut json = Vec::new(alloc);
    for note in notes {
        if !is_reported(note, settings) {
            continue;
        }
        put_note(note, &mut json)?;
    }
    enclose(0, b'[', b']', &mut json)?;
    Ok(json)
}

/// The exit status of the program.
fn ended_by(finished: &Finished, settings: &Settings) -> u8
    requires highest { finished.now.highest ≡ highest_level finished.now.notes.items }
    requires few { finished.now.highest ≤ 4 }
    ensures { let notes = finished.now.notes.items in result ≡ run_result.ended_by settings.now notes (run_result.halting settings.now notes) }
{
    if halting(finished.notes.as_slice(), settings).is_some() {
        1
    } else {
        status_of(finished.highest, settings)
    }
}
