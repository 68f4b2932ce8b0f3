//! Elements that hold a text with inline markup.
ghost use Rattle.std.specs.Prelude.{◌≡◌, length, Ok, chars, IfOk};
ghost use Rattle.rst_tree.specs.Sends.{counted_on};
ghost use Rattle.rst_block_nodes.specs.Texts.{counting, messages_from};
ghost use Rattle.rst_block_nodes.specs.Readings.{texted};
ghost use Rattle.rst_block_nodes.specs.Results.{HoldsText};

use super::nodes::element_of;
use super::numbers::Numbers;
use rst_inline::Pieces;
use rst_settings::Parts;
use rst_tree::{Attrs, Key, Node, Note, Result, Tag, Value};
use std::alloc::Global;

/// An element with the nodes of its text, and the messages of the text.
#[derive(Debug, Drop)]
pub struct Texted {
    pub element: Node,
    pub notes: Vec<Node>,
}

/// An element of line `line` with the nodes of a text whose first line is `text_line`, and the text's messages (Markup
/// Specification, 'Inline Markup'), by the parts of the wider profile that hold. The element has the number of messages as an attribute, if there are some. A message and its problematic have
/// one number, by which the document's messages are counted.
///
/// The only refusal is [`AllocError`].
#[tactic(auto, using(crate::proofs::MessageLemmas::messages_from_length))]
pub fn with_text(
    alloc: Global,
    parts: &Parts,
    tag: Tag,
    line: usize,
    text: &str,
    text_line: usize,
    numbers: &mut Numbers,
) -> Result<Texted>
    ensures text { IfOk result (HoldsText parts.now tag line (chars text.now) text_line numbers.old) }
    ensures numbers { IfOk result (λ read. numbers.new ≡ counted_on numbers.old (length read.notes.items)) }
    ensures read { IfOk result (λ made. texted parts.now tag line (chars text.now) text_line numbers.old ≡ Ok ((made.element, made.notes.items), numbers.new)) }
{
    let first = numbers.given();
    let Pieces { nodes, notes } = numbers.inline(alloc, parts, text, text_line)?;
    // Most texts have no messages.
    if notes.is_empty() {
        return Ok(Texted {
            element: element_of(tag, Attrs::new(alloc), nodes, line),
            notes: Vec::new(alloc),
        });
    }
    numbers.give(notes.len());
    let notes = messages_of(alloc, notes, first)?;
    let attrs = counting(alloc, notes.len())?;
    Ok(Texted {
        element: element_of(tag, attrs, nodes, line),
        notes,
    })
}

/// The messages of a text as nodes, numbered from the first on.
#[tactic(auto, using(crate::proofs::MessageLemmas::messages_from_append, crate::proofs::MessageLemmas::number_after_append))]
pub(crate) fn messages_of(alloc: Global, notes: Vec<Note>, first: u64) -> Result<Vec<Node>>
    ensures { IfOk result (λ messages. messages.items ≡ messages_from first notes.items) }
{
    if notes.is_empty() {
        return Ok(Vec::new(alloc));
    }
    let mut messages = Vec::with_capacity(alloc, notes.len())?;
    let mut number = first;
    for note in notes {
        messages.push(note.into_numbered(alloc, number)?)?;
        number = number.saturating_add(1);
    }
    Ok(messages)
}

/// The attribute with the number of messages that an element's text has, if it has some.
pub(crate) fn counting(alloc: Global, notes: usize) -> Result<Attrs>
    ensures { IfOk result (λ attrs. attrs ≡ counting notes) }
{
    if notes == 0 {
        return Ok(Attrs::new(alloc));
    }
    Attrs::lone(alloc, Key::TextMessages, Value::Number(notes as u64))
}
