//! Elements of inline markup.
ghost use Rattle.std.specs.Prelude.{◌≡◌, true, chars, IfOk};
ghost use Rattle.rst_tree.specs.Attributes.{are_keys_in_order};
ghost use Rattle.rst_inline.specs.Elements.{text_children, text_element, handed_node, problematic_node};

use rst_tree::{Attrs, Children, Entry, Key, Node, Result, Tag, Text, Value};
use std::alloc::Global;

/// The nodes of a text: none where it is empty.
pub(crate) fn text_nodes(alloc: Global, display_text: &str) -> Result<Children>
    ensures { IfOk result (λ nodes. nodes ≡ text_children (chars display_text.now)) }
{
    if display_text.is_empty() {
        return Ok(Children::new(alloc));
    }
    let text = Text::from_str(alloc, display_text)?;
    let nodes = Children::lone(alloc, Node::Text(text))?;
    Ok(nodes)
}

/// An element with attributes, whose names rise, that holds a text.
pub(crate) fn element(
    alloc: Global,
    tag: Tag,
    attrs: Vec<Entry>,
    display_text: &str,
    line: usize,
) -> Result<Node>
    requires { are_keys_in_order attrs.items ≡ true }
    ensures { IfOk result (λ node. node ≡ text_element tag attrs.items (chars display_text.now) line) }
{
    let children = text_nodes(alloc, display_text)?;
    Ok(Node::Element {
        tag,
        attrs: Attrs::of(attrs),
        children,
        line,
    })
}

/// A directive or a role that is handed back, by its name and its source text.
pub fn handed(alloc: Global, kind: &str, name: &str, source: &str, line: usize) -> Result<Node>
    ensures { IfOk result (λ node. node ≡ handed_node kind.now name.now (chars source.now) line) }
{
    let attrs = vec![in alloc;
        Entry::new(Key::Kind, Value::Text(Text::from_str(alloc, kind)?)),
        Entry::new(Key::Name, Value::Text(Text::from_str(alloc, name)?)),
        Entry::new(
            Key::XmlSpace,
            Value::Text(Text::from_str(alloc, "preserve")?)
        ),
    ]?;
    element(alloc, Tag::Handed, attrs, source, line)
}

/// What is wrong as it is written, with the number of its message.
pub(crate) fn problematic(alloc: Global, number: u64, source: &str, line: usize) -> Result<Node>
    ensures { IfOk result (λ node. node ≡ problematic_node number (chars source.now) line) }
{
    // Registration adds two: its id and the id of its message.
    let mut attrs = Vec::with_capacity(alloc, 3)?;
    attrs.push_reserved(Entry::new(Key::Message, Value::Number(number)));
    element(alloc, Tag::Problematic, attrs, source, line)
}
