//! Bullet lists, enumerated lists and the options of option lists.
ghost use Rattle.std.specs.Prelude.{◌≡◌, None, option_map, IfOk};
ghost use Rattle.rst_block_nodes.specs.Elements.{bullet_list_node, enumerated_list_node, start_text, option_node};
ghost use Rattle.rst_block_nodes.specs.Texts.{message_node};

use super::messages::message;
use super::nodes::{element_of, plain, text_nodes};
use super::values::text_value;
use itoa::Buffer;
use rst_markup_lines::{Delimiter, Enumerator, Format, Sequence, first_reading};
use rst_tree::{Attrs, Key, Level, Node, Result, Tag, Text, Value};
use std::alloc::Global;

/// A bullet list whose items begin with a mark, without its items (Document Tree, 'bullet_list').
///
/// The only refusal is [`AllocError`].
pub fn bullet_list(alloc: Global, mark: char, line: usize) -> Result<Node>
    ensures { IfOk result (λ node. node ≡ bullet_list_node mark line) }
{
    let mut bullet = String::new(alloc);
    bullet.push(mark)?;
    let attrs = Attrs::lone(alloc, Key::Bullet, Value::Text(Text::new(bullet)))?;
    Ok(element_of(Tag::BulletList, attrs, Vec::new(alloc), line))
}

/// An enumerated list whose first item begins with an enumerator, without its items (Document Tree, 'enumerated_list').
/// It has its first ordinal as an attribute if that isn't 1.
///
/// The only refusal is [`AllocError`].
pub fn enumerated_list(alloc: Global, enumerator: Enumerator, line: usize) -> Result<Node>
    ensures { IfOk result (λ node. node ≡ enumerated_list_node enumerator line) }
{
    let reading = first_reading(enumerator.written.ordinals);
    let sequence = match reading.sequence {
        Sequence::Arabic => "arabic",
        Sequence::LowerAlpha => "loweralpha",
        Sequence::UpperAlpha => "upperalpha",
        Sequence::LowerRoman => "lowerroman",
        Sequence::UpperRoman => "upperroman",
    };
    let (prefix, suffix) = match enumerator.format {
        Format::Parentheses => ("(", ")"),
        Format::Parenthesis => ("", ")"),
        Format::Period => ("", "."),
    };
    let mut attrs = Attrs::new(alloc);
    attrs.set(Key::Enumtype, text_value(alloc, sequence)?)?;
    attrs.set(Key::Prefix, text_value(alloc, prefix)?)?;
    attrs.set(Key::Suffix, text_value(alloc, suffix)?)?;
    if reading.ordinal != 1 {
        attrs.set(Key::Start, Value::Number(reading.ordinal))?;
    }
    Ok(element_of(Tag::EnumeratedList, attrs, Vec::new(alloc), line))
}

/// The message that the first ordinal of a list isn't 1. `written` is the ordinal as it is in the source.
///
/// The only refusal is [`AllocError`].
pub fn start_message(alloc: Global, written: &str, ordinal: u64, line: usize) -> Result<Node>
    ensures { IfOk result (λ node. node ≡ message_node Level.Info line (start_text written.now ordinal) None) }
{
    let mut buffer = Buffer::new();
    let mut text = String::from_str(alloc, "Enumerated list start value not ordinal-1: \"")?;
    text.push_str(written)?;
    text.push_str("\" (ordinal ")?;
    text.push_str(buffer.format(ordinal))?;
    text.push_str(")")?;
    message(alloc, Level::Info, line, text.as_str(), None)
}

/// An option of an option list, with its argument, if it has one: what comes before it, and its text (Document Tree,
/// 'option').
///
/// The only refusal is [`AllocError`].
pub fn option(
    alloc: Global,
    string: &str,
    argument: Option<(Delimiter, &str)>,
    line: usize,
) -> Result<Node>
    ensures { IfOk result (λ node. node ≡ option_node string.now (option_map (λ a. (a.0, a.1.now)) argument.entry) line) }
{
    let mut nodes = Vec::new(alloc);
    nodes.push(plain(alloc, Tag::OptionString, line, string)?)?;
    if let Some((delimiter, text)) = argument {
        let delimiter = match delimiter {
            Delimiter::Nothing => "",
            Delimiter::Space => " ",
            Delimiter::Equals => "=",
        };
        let attrs = Attrs::lone(alloc, Key::Delimiter, text_value(alloc, delimiter)?)?;
        let content = text_nodes(alloc, text)?;
        nodes.push(element_of(Tag::OptionArgument, attrs, content, line))?;
    }
    Ok(element_of(Tag::Option, Attrs::new(alloc), nodes, line))
}
