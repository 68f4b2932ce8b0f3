//! Messages on equal names.
ghost use Rattle.std.specs.Prelude.{◌≡◌, IfOk};
ghost use Rattle.rst_tree_index.specs.Registered.{item_of};
ghost use Rattle.rst_transform_names.specs.DuplicateMessages as spec;

use super::names::Strength;
use super::registrants::own_name;
use super::rulings::DuplicateMessage;
use rst_tree::{Key, Level, Node, Note, Result, Text, Texts, Value};
use rst_tree_index::Element;
use std::alloc::Global;

/// The message on an element's name, which refers back to the element's id.
pub fn duplicate_name(
    alloc: Global,
    message: DuplicateMessage,
    new: Element<'_>,
    id: &Text,
) -> Result<Node>
    ensures { IfOk result (λ made. made ≡ spec.duplicate_name message (item_of new.entry) id.now) }
{
    let words = match message.strength {
        Strength::Implicit => "Duplicate implicit target name: \"",
        Strength::Explicit => "Duplicate explicit target name: \"",
    };
    let mut node = name_message(alloc, message.level, words, new)?;
    let backrefs = Texts::lone(alloc, id.copy()?);
    node.set_at(&[], Key::Backrefs, Value::List(backrefs))?;
    Ok(node)
}

/// The message on the name of a substitution definition.
pub fn duplicate_definition(alloc: Global, new: Element<'_>) -> Result<Node>
    ensures { IfOk result (λ made. made ≡ spec.duplicate_definition (item_of new.entry)) }
{
    name_message(
        alloc,
        Level::Error,
        "Duplicate substitution definition name: \"",
        new,
    )
}

/// The message with some words and an element's name.
fn name_message(alloc: Global, level: Level, words: &str, new: Element<'_>) -> Result<Node>
    ensures { IfOk result (λ made. made ≡ spec.name_message level words.now (item_of new.entry)) }
{
    let mut text = Text::from_str(alloc, words)?;
    text.push_str(own_name(new))?;
    text.push_str("\".")?;
    let note = Note {
        level,
        line: new.line,
        text,
        block: None,
    };
    note.into_node(alloc)
}
