//! The messages that follow texts.
ghost use Rattle.std.specs.Prelude.{◌≡◌, ◌++◌, replicate, IfOk};
ghost use Rattle.rst_transform_names.specs.NameMessages as spec;
ghost use Rattle.rst_transform_names.specs.declared.queue.Queued.TheVariants.{Present};

use rst_tree::{Attrs, Key, Node, Result};
use std::collections::VecDeque;

/// A message that follows a text.
#[derive(Drop)]
pub enum Queued {
    /// The next of the text's own messages, which is among the nodes already.
    Present,
    /// A message on a name, which is to be put there.
    New(Node),
}

/// The messages that follow a text, in order.
pub type Queue = VecDeque<Queued>;

/// Puts those messages of a queue after nodes that come before the next node, and leaves in the queue what is due after this node.
#[inline(never)]
pub fn put_next(queue: &mut Queue, nodes: &mut Vec<Node>) -> Result<()>
    ensures nodes { IfOk result (λ _. nodes.new.items ≡ nodes.old.items ++ spec.before_next queue.old.items) }
    ensures queue { IfOk result (λ _. queue.new.items ≡ spec.after_next queue.old.items) }
{
    while let Some(queued) = queue.pop_front() {
        match queued {
            Queued::Present => return Ok(()),
            Queued::New(message) => nodes.push(message)?,
        }
    }
    Ok(())
}

/// Puts the own messages of the text of an element with these attributes at the end of a queue.
#[inline(never)]
pub fn push_present(queue: &mut Queue, attrs: &Attrs) -> Result<()>
    ensures { IfOk result (λ _. queue.new.items ≡ queue.old.items ++ replicate (spec.counted attrs.now) Present) }
{
    let count = attrs.number(Key::TextMessages).unwrap_or(0);
    for _done in 0..count {
        queue.push_back(Queued::Present)?;
    }
    Ok(())
}
