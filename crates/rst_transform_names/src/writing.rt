//! The attributes that registration gives, written at the elements.
ghost use Rattle.std.specs.Prelude.{◌≡◌, MatchOption, None, Some, IfOk};
ghost use Rattle.rst_transform_names.specs.Written.{given, with_id, with_standing, message_ids_of, with_problematic, with_refid, with_message, with_backrefs, left_after, with_given};

use super::ids::{message_id, problematic_id};
use super::message_ids::{KnownMessages, MessageIds};
use super::registry::{Standing, copied_text};
use rst_tree::{Attrs, Key, Result, Tag, Text, Texts, Value, Visitor};
use std::alloc::Global;
use std::collections::VecDeque;
use std::marker::Model;

/// Writes an element's id into attributes, if it has one.
fn write_id(alloc: Global, attrs: &mut Attrs, id: Option<Text>) -> Result<()>
    ensures { IfOk result (λ _. attrs.new ≡ with_id id attrs.old) }
{
    match id {
        Some(id) => attrs.set(Key::Ids, Value::List(Texts::lone(alloc, id))),
        None => Ok(()),
    }
}

/// Writes into the attributes of an element what registration gave it: its number, its name, if it has one, as a duplicate one where the element
/// lost it, and its id.
fn write(alloc: Global, attrs: &mut Attrs, standing: Standing) -> Result<()>
    ensures { IfOk result (λ _. attrs.new ≡ with_standing standing attrs.old) }
{
    let name = copied_text(attrs.text(Key::OwnName))?;
    attrs.reserve(if name.is_some() { 3 } else { 2 })?;
    let Standing {
        serial,
        id,
        unnamed,
        lost,
    } = standing;
    attrs.set(Key::Serial, Value::Number(serial))?;
    if let Some(name) = name {
        if !unnamed && !name.as_bytes().is_empty() {
            let key = if lost { Key::Dupnames } else { Key::Names };
            attrs.set(key, Value::List(Texts::lone(alloc, name)))?;
        }
    }
    write_id(alloc, attrs, id)
}

/// What is known of the message whose number is in an element's attributes, if there is one.
fn message_ids_of<'a>(messages: &'a [MessageIds], attrs: &Attrs) -> Option<&'a MessageIds>
    ensures { MatchOption result (message_ids_of messages.now attrs.now ≡ None) (λ l. message_ids_of messages.now attrs.now ≡ Some l.now) }
{
    messages.get(attrs.number(Key::Message)? as usize)
}

/// Writes the id of a problematic's message into its attributes, if the message has a number for that id.
fn write_refid(alloc: Global, attrs: &mut Attrs, message: Option<u64>) -> Result<()>
    ensures { IfOk result (λ _. attrs.new ≡ with_refid message attrs.old) }
{
    match message {
        Some(number) => attrs.set(Key::Refid, Value::Text(message_id(alloc, number)?)),
        None => Ok(()),
    }
}

/// Writes the ids of a message's problematics into its attributes, if there are any.
fn write_backrefs(alloc: Global, attrs: &mut Attrs, ids: &Texts) -> Result<()>
    ensures { IfOk result (λ _. attrs.new ≡ with_backrefs ids.now attrs.old) }
{
    if ids.as_slice().is_empty() {
        return Ok(());
    }
    attrs.set(Key::Backrefs, Value::List(ids.copy(alloc)?))
}

/// Writes at each element what it got.
#[derive(Drop)]
pub struct Writing {
    alloc: Global,
    /// What the elements got that are still to come and may have names, in preorder.
    standings: VecDeque<Standing>,
    /// The numbers in the ids of the messages and problematics that are still to come, in preorder.
    numbers: VecDeque<u64>,
    /// What is known of each message, by the number that it and its problematics carry.
    messages: Vec<MessageIds>,
}

impl Model for Writing {
    ghost use Rattle.rst_transform_names.specs.Written.{Given, given};

    ghost Value = { Given };

    ghost view = { λ w. given w.standings.items w.numbers.items w.messages.items };
}

impl Writing {
    /// Before the first element.
    pub fn of(alloc: Global, standings: Vec<Standing>, known_messages: KnownMessages) -> Writing
        ensures { result ≡ given standings.items known_messages.numbers.items known_messages.messages.items }
    {
        let KnownMessages { numbers, messages } = known_messages;
        Writing {
            alloc,
            standings: VecDeque::from_vec(standings),
            numbers: VecDeque::from_vec(numbers),
            messages,
        }
    }

    /// Writes a problematic's id, with this number, into its attributes, and its message's id, if the message is in the document.
    fn write_problematic(&self, attrs: &mut Attrs, number: u64) -> Result<()>
        ensures { IfOk result (λ _. attrs.new ≡ with_problematic self.now.messages number attrs.old) }
    {
        attrs.reserve(2)?;
        if let Some(message) = message_ids_of(&self.messages, attrs) {
            write_refid(self.alloc, attrs, message.id)?;
        }
        write_id(self.alloc, attrs, Some(problematic_id(self.alloc, number)?))
    }

    /// Writes a message's id, with this number, into its attributes, and the ids of its problematics, if there are any.
    fn write_message(&self, attrs: &mut Attrs, number: u64) -> Result<()>
        ensures { IfOk result (λ _. attrs.new ≡ with_message self.now.messages number attrs.old) }
    {
        attrs.reserve(2)?;
        if let Some(message) = message_ids_of(&self.messages, attrs) {
            write_backrefs(self.alloc, attrs, &message.problematics)?;
        }
        write_id(self.alloc, attrs, Some(message_id(self.alloc, number)?))
    }
}

impl Visitor for Writing {
    ghost next = { left_after };

    ghost out = { with_given };

    fn visit(&mut self, tag: &mut Tag, attrs: &mut Attrs, _line: &mut usize) -> Result<()> {
        match *tag {
            Tag::Problematic => match self.numbers.pop_front() {
                Some(number) => self.write_problematic(attrs, number),
                None => Ok(()),
            },
            Tag::SystemMessage => match self.numbers.pop_front() {
                Some(number) => self.write_message(attrs, number),
                None => Ok(()),
            },
            _ => match self.standings.pop_front() {
                Some(standing) => write(self.alloc, attrs, standing),
                None => Ok(()),
            },
        }
    }
}
