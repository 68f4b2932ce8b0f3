//! The list of messages, and the levels at which they count.
ghost use Rattle.std.specs.Prelude.{◌≡◌, ◌≤◌, ◌==◌, ◌&&◌, ◌||◌, min, ℕ, IfOk};
ghost use Rattle.std.specs.List.{list_any};
ghost use Rattle.rst_tree_index.specs.Kinds.{is_message};
ghost use Rattle.rst_settings.specs.Threshold.{is_reached};
ghost use Rattle.rst_tree.specs.Tree.{text_in};
ghost use Rattle.rst_tree.specs.Walk.{item, items};
ghost use Rattle.rst_transform_messages.specs.Early.{is_early};
ghost use Rattle.rst_transform_messages.specs.Messages.{has_halt, EndsAtHalt, highest_level, level_in, has_number, is_number_marked};
ghost use Rattle.rst_transform_messages.specs.MessagesIn.{note_in};

use rst_settings::Threshold;
use rst_transform_work::Report;
use rst_tree::{Attrs, Children, Key, Level, Node, Note, Reader, Result, Tag, Text, read_elements};
use rst_tree_index::is_internal;
use std::alloc::Global;

/// Whether a level of that number is at or above a threshold; a number above 4 counts as 4.
pub fn reaches(level: u64, threshold: Threshold) -> bool
    ensures { result ≡ is_reached threshold (min level 4) }
{
    threshold.is_reached(level.min(4) as u8)
}

/// The level of a `system_message` by its number.
pub fn level_number(attrs: &Attrs) -> u64
    ensures { result ≡ level_in attrs.now }
{
    attrs.number(Key::Level).unwrap_or(0)
}

/// The messages of a run in order, up to the first that halts it (Configuration, `halt_level`), and which of all are printed
/// (Configuration, `report_level`).
#[derive(Drop)]
pub struct Messages {
    notes: Vec<Note>,
    /// From which level on a message halts the run.
    halt: Threshold,
    /// Whether the last message does.
    halted: bool,
    /// From which level on a message is printed.
    report: Threshold,
    /// Whether the message of each number is printed.
    reported: Vec<bool>,
    /// Whether the first transforms have something to act on among the nodes that were gone through.
    pub early: bool,
    pub ghost halted_is: { halted ≡ has_halt halt notes.items },
    pub ghost ends: { EndsAtHalt halt notes.items },
}

impl Messages {
    ghost use Rattle.std.specs.Prelude.{[], ◌∷◌, List, map};
    ghost use Rattle.rst_transform_messages.specs.Messages.{until_halt, unnumbered_notes, is_number_reported, NumberedNote};
    ghost use Rattle.rst_transform_messages.specs.MessagesIn.{message_in, messages_among};
    ghost use Rattle.rst_transform_messages.specs.Listed.{numbered_report, Adds, KeepsMessages, KeepsLevels, Lists};

    /// The messages among nodes and in them, in preorder, in a list with room for `room` of them, of a run that halts at one threshold and prints
    /// messages from another one on. A message contains no other.
    pub fn of(
        alloc: Global,
        nodes: &Children,
        room: u64,
        halt: Threshold,
        report: Threshold,
    ) -> Result<Messages>
        ensures halt { IfOk result (λ messages. messages.halt ≡ halt) }
        ensures report { IfOk result (λ messages. messages.report ≡ report) }
        ensures messages { IfOk result (Lists (messages_among nodes.now)) }
        ensures early { IfOk result (λ messages. messages.early ≡ list_any is_early (items nodes.now)) }
    {
        let mut messages = Messages {
            notes: Vec::with_capacity(alloc, room as usize)?,
            halt,
            halted: false,
            report,
            reported: Vec::with_capacity(alloc, room as usize)?,
            early: false,
        };
        read_elements(alloc, nodes, None, &mut messages)?;
        Ok(messages)
    }

    /// Adds a message with a number, if it has one: to the list only if no earlier one halts the run.
    fn push(&mut self, note: Note, number: Option<u64>) -> Result<()>
        ensures keeps { KeepsMessages self.old self.new }
        ensures adds { IfOk result (λ _. Adds ((note, number) ∷ []) self.old self.new) }
    {
        let level = note.level.number();
        mark_reported(&mut self.reported, self.report.is_reached(level), number)?;
        if self.halted {
            return Ok(());
        }
        let halts = self.halt.is_reached(level);
        self.notes.push(note)?;
        self.halted = halts;
        Ok(())
    }

    /// Adds the message of a `system_message` with these attributes and nodes on a line.
    // What it keeps is off the stack while nodes are gone through.
    #[inline(never)]
    fn push_message(
        &mut self,
        alloc: Global,
        attrs: &Attrs,
        children: &Children,
        line: usize,
    ) -> Result<()>
        ensures keeps { KeepsMessages self.old self.new }
        ensures adds { IfOk result (λ _. Adds (message_in attrs.now children.now line ∷ []) self.old self.new) }
    {
        let note = note_of(alloc, attrs, children, line)?;
        self.push(note, attrs.number(Key::Message))
    }

    /// Adds the messages of the transforms, which are the last.
    pub fn add_reports(&mut self, reports: Vec<Report>) -> Result<()>
        ensures levels { KeepsLevels self.old self.new }
        ensures adds { IfOk result (λ _. Adds (map numbered_report reports.items) self.old self.new) }
    {
        self.notes.reserve(reports.len())?;
        for report in reports {
            let number = report.number;
            self.push(report.into_note(), Some(number))?;
        }
        Ok(())
    }

    /// Whether the message of each number is printed, once all messages were added. No transform takes a message out of a
    /// document, so those that are printed are in it.
    pub fn reported(&self) -> &[bool]
        ensures { (all : List NumberedNote) → Lists all self.now → (n : ℕ) → is_number_marked result.now n ≡ is_number_reported self.now.report all n }
    {
        self.reported.as_slice()
    }

    /// The messages, and the number of their highest level, 0 where there are none.
    pub fn end(self) -> (Vec<Note>, u8)
        ensures notes { (all : List NumberedNote) → Lists all self → result.0.items ≡ until_halt self.halt (unnumbered_notes all) }
        ensures halt { EndsAtHalt self.halt result.0.items }
        ensures highest { result.1 ≡ highest_level result.0.items }
        ensures few { result.1 ≤ 4 }
    {
        let mut highest = 0;
        for note in &self.notes {
            if note.level.number() > highest {
                highest = note.level.number();
            }
        }
        (self.notes, highest)
    }
}

impl<'a> Reader<'a> for Messages {
    ghost use Rattle.rst_transform_messages.specs.Listed.{TakesMessage};

    ghost takes = { TakesMessage };

    // The inside of a message is marked by `Some` level.
    #[inline(always)]
    fn read(
        &mut self,
        alloc: Global,
        element: &'a Node,
        level: Option<usize>,
    ) -> Result<Option<usize>> {
        let Node::Element {
            tag,
            attrs,
            children,
            line,
        } = element
        else {
            return Ok(level);
        };
        self.early |= is_early(*tag, attrs);
        if !is_message(*tag) {
            return Ok(level);
        }
        if level.is_none() {
            self.push_message(alloc, attrs, children, *line)?;
        }
        Ok(Some(0))
    }
}

/// Whether an element is a substitution reference or an internal target: the first transforms act on these.
#[inline(always)]
fn is_early(tag: Tag, attrs: &Attrs) -> bool
    ensures { result ≡ is_early (item tag attrs.now 0) }
{
    matches!(tag, Tag::SubstitutionReference) || is_internal(tag, attrs)
}

/// Whether an element is a message.
fn is_message(tag: Tag) -> bool
    ensures { result ≡ is_message tag }
{
    matches!(tag, Tag::SystemMessage)
}

/// Marks the number of a message that is printed, if it has one.
fn mark_reported(marks: &mut Vec<bool>, is_reported: bool, number: Option<u64>) -> Result<()>
    ensures { IfOk result (λ _. (n : ℕ) → is_number_marked marks.new.items n ≡ (is_number_marked marks.old.items n || (is_reported && has_number n number))) }
{
    match number {
        Some(number) if is_reported => mark(marks, number as usize),
        _ => Ok(()),
    }
}

/// Marks a number among those up to it or more.
fn mark(marks: &mut Vec<bool>, number: usize) -> Result<()>
    ensures { IfOk result (λ _. (n : ℕ) → is_number_marked marks.new.items n ≡ (is_number_marked marks.old.items n || (n == number))) }
{
    for _ in marks.len()..number {
        marks.push(false)?;
    }
    if let Some(mark) = marks.get_mut(number) {
        *mark = true;
        return Ok(());
    }
    marks.push(true)?;
    Ok(())
}

/// The message of a `system_message` with these attributes and nodes on a line.
fn note_of(alloc: Global, attrs: &Attrs, children: &Children, line: usize) -> Result<Note>
    ensures { IfOk result (λ note. note ≡ note_in attrs.now children.now line) }
{
    let text = match children.get(0) {
        Some(paragraph) => words_of(alloc, paragraph)?,
        None => Text::from_str(alloc, "")?,
    };
    let block = match children.get(1) {
        Some(block) => Some(words_of(alloc, block)?),
        None => None,
    };
    Ok(Note {
        // One without a level is as grave as the first.
        level: Level::of_number(level_number(attrs).max(1)),
        line,
        text,
        block,
    })
}

/// The texts in an element, joined; mostly there is one.
fn words_of(alloc: Global, element: &Node) -> Result<Text>
    ensures { IfOk result (λ text. text ≡ text_in element.now) }
{
    if let Node::Element { children, .. } = element {
        if children.len() == 1 {
            if let Some(Node::Text(text)) = children.get(0) {
                return text.copy();
            }
        }
    }
    element.text_of(alloc)
}
