//! The messages of the transforms.
ghost use Rattle.std.specs.Prelude.{◌≡◌, List, ℕ, IfOk};
ghost use Rattle.rst_transform_names.specs.Ids.{AreTaken};
ghost use Rattle.rst_transform_work.specs.Problematics.{own_id, referring_report, with_own_id};
ghost use Rattle.rst_transform_work.specs.Reports.{report_attrs, report_node, report_note, without_ids};

use rst_transform_names::Ids;
use rst_tree::{Attrs, Entry, Key, Level, Node, Note, Result, Tag, Text, Texts, Value};
use std::alloc::Global;
use std::mem;

/// A message of a transform.
#[derive(Debug, Drop)]
pub struct Report {
    /// How grave it is.
    pub level: Level,
    /// The number of the line that it speaks of.
    pub line: usize,
    /// Its text.
    pub text: Text,
    /// The number that it and its problematics carry (`Key::Message`), which no other message has.
    pub number: u64,
    /// Its id, which it gets with its first problematic.
    pub id: Option<Text>,
    /// The ids of its problematics, in the order in which they were made.
    pub backrefs: Texts,
    /// Whether it is in the last section. One that isn't is where its transform put it.
    pub own: bool,
}

impl Report {
    /// The message as a `system_message`, to which its id and those of its problematics move.
    pub fn node(&mut self, alloc: Global) -> Result<Node>
        ensures node { IfOk result (λ node. node ≡ report_node self.old) }
        ensures left { IfOk result (λ _. self.new ≡ without_ids self.old) }
    {
        let note = Note {
            level: self.level,
            line: self.line,
            text: self.text.copy()?,
            block: None,
        };
        let attrs = self.take_attrs(alloc)?;
        note.into_node_with(alloc, attrs)
    }

    /// The attributes of the `system_message`, in the order of the names: the ids of its problematics and its own, which move there, its level
    /// and its number.
    #[tactic(auto, using(crate::proofs::Orders::report_in_order))]
    fn take_attrs(&mut self, alloc: Global) -> Result<Attrs>
        ensures attrs { IfOk result (λ attrs. attrs ≡ report_attrs self.old) }
        ensures left { IfOk result (λ _. self.new ≡ without_ids self.old) }
    {
        let mut list = Vec::with_capacity(alloc, 4)?;
        let backrefs = mem::replace(&mut self.backrefs, Texts::new(alloc));
        list.push(Entry::new(Key::Backrefs, Value::List(backrefs)))?;
        if let Some(id) = mem::replace(&mut self.id, None) {
            list.push(Entry::new(Key::Ids, Value::List(Texts::lone(alloc, id))))?;
        }
        let level = Value::Number(u64::from(self.level.number()));
        list.push(Entry::new(Key::Level, level))?;
        list.push(Entry::new(Key::Message, Value::Number(self.number)))?;
        Ok(Attrs::of(list))
    }

    /// Its text, level and line, for the list of messages.
    pub fn into_note(self) -> Note
        ensures { result ≡ report_note self }
    {
        Note {
            level: self.level,
            line: self.line,
            text: self.text,
            block: None,
        }
    }

    /// Adds a problematic by its id, and gives the message's own, which it gets with the first.
    pub(crate) fn refer_back(&mut self, alloc: Global, ids: &mut Ids, id: Text) -> Result<Text>
        ensures report { IfOk result (λ own. self.new ≡ referring_report own id self.old) }
        ensures ids { (taken : List (List ℕ)) → AreTaken ids.old taken → IfOk result (λ own. (own ≡ own_id self.old.id taken) × AreTaken ids.new (with_own_id self.old.id taken)) }
    {
        self.backrefs.push(id)?;
        if let Some(own) = &self.id {
            return own.copy();
        }
        let own = ids.give_kind(alloc, Tag::SystemMessage)?;
        self.id = Some(own.copy()?);
        Ok(own)
    }
}
