//! Messages and their problematics.
ghost use Rattle.std.specs.Prelude.{◌≡◌, ◌++◌, [], ◌∷◌, None, replicate, IfOk};
ghost use Rattle.rst_tree.specs.declared.key.Key.TheVariants.{Message};
ghost use Rattle.rst_tree.specs.Attributes.{as_number, value_of};
ghost use Rattle.rst_tree_index.specs.Registered.{item_of};
ghost use Rattle.rst_transform_names.specs.Registering.{with_member, with_message_changed};

use super::ids::problematic_id;
use rst_tree::{Key, Result, Tag, Texts};
use rst_tree_index::Element;
use std::alloc::Global;

/// What is known of a message.
#[derive(Drop)]
pub struct MessageIds {
    /// The number in its id, if it is in the document.
    pub id: Option<u64>,
    /// The ids of its problematics, in document order.
    pub problematics: Texts,
}

/// What is known of messages and problematics. They have no names; of their ids the numbers are enough.
#[derive(Drop)]
pub struct KnownMessages {
    /// The numbers in their ids, in preorder.
    pub numbers: Vec<u64>,
    /// What is known of each message, by the number that it and its problematics carry.
    pub messages: Vec<MessageIds>,
}

impl KnownMessages {
    /// What is known before the first message or problematic, with room for `room` of them; `messages` numbers were given to messages.
    pub fn new(alloc: Global, room: usize, messages: u64) -> Result<KnownMessages>
        ensures numbers { IfOk result (λ known_messages. known_messages.numbers.items ≡ []) }
        ensures messages { IfOk result (λ known_messages. known_messages.messages.items ≡ replicate messages (record { id = None; problematics = [] })) }
    {
        let mut known_messages = KnownMessages {
            numbers: Vec::with_capacity(alloc, room)?,
            messages: Vec::with_capacity(alloc, messages as usize)?,
        };
        for _done in 0..messages {
            known_messages.messages.push(MessageIds {
                id: None,
                problematics: Texts::new(alloc),
            })?;
        }
        Ok(known_messages)
    }

    /// Adds one more message or problematic, whose id has a number.
    pub fn add(&mut self, alloc: Global, new: Element<'_>, number: u64) -> Result<()>
        ensures numbers { IfOk result (λ _. self.new.numbers.items ≡ self.old.numbers.items ++ number ∷ []) }
        ensures messages { IfOk result (λ _. self.new.messages.items ≡ with_message_changed (as_number (value_of Message (item_of new.entry).attrs)) (with_member (item_of new.entry).tag number) self.old.messages.items) }
    {
        self.numbers.push(number)?;
        let Some(message) = new.attrs.number(Key::Message) else {
            return Ok(());
        };
        let message = message as usize;
        if message < self.messages.len() {
            self.messages[message].add(alloc, new.tag, number)?;
        }
        Ok(())
    }
}

impl MessageIds {
    /// Adds a problematic of the message, or the message itself, whose id has a number.
    fn add(&mut self, alloc: Global, tag: Tag, number: u64) -> Result<()>
        ensures { IfOk result (λ _. self.new ≡ with_member tag number self.old) }
    {
        if matches!(tag, Tag::Problematic) {
            return self.problematics.push(problematic_id(alloc, number)?);
        }
        self.id = Some(number);
        Ok(())
    }
}
