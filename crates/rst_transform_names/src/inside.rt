//! What is made of the nodes of an element when the messages on equal names get their places.
ghost use Rattle.std.specs.Prelude.{◌≡◌, ◌++◌, [], if◌then◌else◌, IfOk};
ghost use Rattle.std.specs.Option.{option_to_list};
ghost use Rattle.rst_transform_names.specs.NameMessages as spec;
ghost use Rattle.rst_transform_names.specs.NameMessages.{message_on};
ghost use Rattle.rst_transform_names.specs.PlacingMessages.{seen};

use super::queue::{Queue, Queued, push_present, put_next};
use rst_tree::{Attrs, Children, Key, Node, Result, Tag};
use std::alloc::Global;

/// Whether the queue of an element's text goes out of the element around it.
fn goes_out(parent: Tag, tag: Tag, attrs: &Attrs) -> bool
    ensures { result ≡ spec.goes_out parent tag attrs.now }
{
    attrs.has(Key::Inline)
        || matches!(
            (parent, tag),
            (Tag::LineBlock, Tag::Line | Tag::LineBlock)
                | (Tag::BlockQuote, Tag::Attribution)
                | (Tag::Figure, Tag::Caption)
                | (Tag::DefinitionListItem, Tag::Term | Tag::Classifier)
                | (Tag::Field, Tag::FieldName)
        )
}

/// The message on the name of an element with these attributes, if there is one.
fn own_message(alloc: Global, attrs: &Attrs, messages: &[Option<Node>]) -> Result<Option<Node>>
    ensures { IfOk result (λ own. option_to_list own ≡ spec.own_message (message_on messages.now) attrs.now) }
{
    if let Some(serial) = attrs.number(Key::Serial) {
        if let Some(Some(message)) = messages.get(serial as usize) {
            return Ok(Some(message.copy(alloc)?));
        }
    }
    Ok(None)
}

/// Puts the queue with which an element's nodes begin after another; it may be the one that went `out` of the nodes before the element.
#[inline(never)]
pub fn put_first(
    alloc: Global,
    tag: Tag,
    attrs: &Attrs,
    messages: &[Option<Node>],
    out: &mut Queue,
    first: &mut Queue,
) -> Result<()>
    ensures first { IfOk result (λ _. first.new.items ≡ first.old.items ++ spec.first_queue tag attrs.now (spec.own_message (message_on messages.now) attrs.now) out.old.items) }
    ensures out { IfOk result (λ _. out.new.items ≡ (if spec.takes_in tag then [] else out.old.items)) }
{
    match tag {
        Tag::Definition | Tag::FieldBody => first.append(out)?,
        Tag::Section => {
            first.push_back(Queued::Present)?;
            push_present(first, attrs)?;
            if let Some(own) = own_message(alloc, attrs, messages)? {
                first.push_back(Queued::New(own))?;
            }
        }
        _ => {}
    }
    Ok(())
}

/// What is made of the nodes of an element.
#[derive(Drop)]
pub struct Inside {
    /// The nodes so far, with the messages among them.
    pub nodes: Vec<Node>,
    /// The messages that come before the element.
    pub before: Vec<Node>,
    /// Those that follow its text, and those that went out of its nodes.
    pub queue: Queue,
}

impl Inside {
    /// Before the first node of an element.
    #[inline(never)]
    pub fn beginning(alloc: Global, tag: Tag, attrs: &Attrs) -> Result<Inside>
        ensures { IfOk result (λ inside. seen inside ≡ spec.beginning tag attrs.now) }
    {
        let mut queue = Queue::new(alloc);
        if !matches!(tag, Tag::Section) {
            push_present(&mut queue, attrs)?;
        }
        Ok(Inside {
            nodes: Vec::new(alloc),
            before: Vec::new(alloc),
            queue,
        })
    }

    /// Puts the messages there that are due before the next node, by the queue that the nodes began with and that of the texts before it.
    #[inline(never)]
    pub fn put_due(&mut self, first: &mut Queue, due: &mut Queue) -> Result<()>
        ensures made { IfOk result (λ _. seen self.new ≡ spec.with_due first.old.items due.old.items (seen self.old)) }
        ensures first { IfOk result (λ _. first.new.items ≡ spec.after_next first.old.items) }
        ensures due { IfOk result (λ _. due.new.items ≡ spec.after_next due.old.items) }
    {
        put_next(due, &mut self.nodes)?;
        put_next(first, &mut self.nodes)
    }

    /// Puts the message on the element's own name outside of it, unless it is a section.
    #[inline(never)]
    pub fn put_own(
        &mut self,
        alloc: Global,
        tag: Tag,
        attrs: &Attrs,
        messages: &[Option<Node>],
    ) -> Result<()>
        ensures { IfOk result (λ _. seen self.new ≡ spec.with_own tag attrs.now (spec.own_message (message_on messages.now) attrs.now) (seen self.old)) }
    {
        if matches!(tag, Tag::Section) {
            return Ok(());
        }
        if let Some(own) = own_message(alloc, attrs, messages)? {
            if attrs.has(Key::Inline) {
                self.queue.push_back(Queued::New(own))?;
            } else {
                self.before.push(own)?;
            }
        }
        Ok(())
    }

    /// Adds an element, with what was made of its nodes, to those of an element of a kind. Its queue goes out or is `due`.
    #[inline(never)]
    pub fn add(
        &mut self,
        parent: Tag,
        tag: Tag,
        attrs: Attrs,
        line: usize,
        mut inside: Inside,
        due: &mut Queue,
    ) -> Result<()>
        ensures made { IfOk result (λ _. seen self.new ≡ spec.with_filled_element parent tag attrs line (seen inside) (seen self.old)) }
        ensures due { IfOk result (λ _. due.new.items ≡ due.old.items ++ (if spec.goes_out parent tag attrs then [] else inside.queue.items)) }
    {
        if matches!(parent, Tag::Reference | Tag::SubstitutionDefinition) {
            self.before.append(&mut inside.before)?;
        } else {
            self.nodes.append(&mut inside.before)?;
        }
        if goes_out(parent, tag, &attrs) {
            self.queue.append(&mut inside.queue)?;
        } else {
            due.append(&mut inside.queue)?;
        }
        self.nodes.push(Node::Element {
            tag,
            attrs,
            children: Children::of(inside.nodes),
            line,
        })?;
        Ok(())
    }
}
