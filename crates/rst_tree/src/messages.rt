//! Messages as elements.
ghost use Rattle.std.specs.Prelude.{◌≡◌, IfOk};
ghost use Rattle.rst_tree.specs.Messages.{holding, note_node, message_with, numbered_message_node};

use crate::attrs::{Attrs, Value};
use crate::entry::Entry;
use crate::fault::Result;
use crate::key::Key;
use crate::node::{Children, Node};
use crate::note::Note;
use crate::tag::Tag;
use crate::text::Text;
use std::alloc::Global;

impl Note {
    /// The message as a `system_message`: a paragraph with its text, and a literal block with the source text that it
    /// quotes, each on the message's line. Its list of attributes has room for three more: its number, its id and the ids of its
    /// problematics. The line, the source and the type are added when the message is printed.
    pub fn into_node(self, alloc: Global) -> Result<Node>
        ensures { IfOk result (λ node. node ≡ note_node self) }
    {
        let mut attrs = Vec::with_capacity(alloc, 4)?;
        let level = Value::Number(u64::from(self.level.number()));
        attrs.push_reserved(Entry::new(Key::Level, level));
        self.into_node_with(alloc, Attrs::of(attrs))
    }

    /// The same with the number of the message (`Key::Message`).
    pub fn into_numbered(self, alloc: Global, number: u64) -> Result<Node>
        ensures { IfOk result (λ node. node ≡ numbered_message_node number self) }
    {
        let mut attrs = Vec::with_capacity(alloc, 4)?;
        let grade = Value::Number(u64::from(self.level.number()));
        attrs.push_reserved(Entry::new(Key::Level, grade));
        attrs.push_reserved(Entry::new(Key::Message, Value::Number(number)));
        self.into_node_with(alloc, Attrs::of(attrs))
    }

    /// The same with these attributes.
    pub fn into_node_with(self, alloc: Global, attrs: Attrs) -> Result<Node>
        ensures { IfOk result (λ node. node ≡ message_with attrs self) }
    {
        let Note {
            text,
            block,
            line,
            ..
        } = self;
        let paragraph = holding(alloc, Tag::Paragraph, Attrs::new(alloc), text, line)?;
        let children = match block {
            None => Children::lone(alloc, paragraph)?,
            Some(lines) => {
                let mut nodes = Vec::with_capacity(alloc, 2)?;
                nodes.push(paragraph)?;
                let preserve = Text::from_str(alloc, "preserve")?;
                let preserved = Attrs::lone(alloc, Key::XmlSpace, Value::Text(preserve))?;
                nodes.push(holding(alloc, Tag::LiteralBlock, preserved, lines, line)?)?;
                Children::of(nodes)
            }
        };
        Ok(Node::Element {
            tag: Tag::SystemMessage,
            attrs,
            children,
            line,
        })
    }
}

/// An element that holds one text.
fn holding(alloc: Global, tag: Tag, attrs: Attrs, text: Text, line: usize) -> Result<Node>
    ensures { IfOk result (λ node. node ≡ holding tag attrs text line) }
{
    Ok(Node::Element {
        tag,
        attrs,
        children: Children::lone(alloc, Node::Text(text))?,
        line,
    })
}
