//! Elements with their attributes, and texts.

ghost use Rattle.std.specs.Prelude.{◌≡◌, map, None, Some, flat_map, IfOk};
ghost use Rattle.rst_json.specs.Json.{Adds, after_comma, json_array, json_attr_of, json_node_of, json_object, json_string};
ghost use Rattle.rst_tree.specs.KeyNames.{key_name};
ghost use Rattle.rst_tree.specs.PrintedAttributes.{printed_attrs, with_printed_attrs};
ghost use Rattle.rst_tree.specs.declared.tag.Tag.TheVariants.{SystemMessage};

use crate::list::enclose;
use crate::string::{put_number, put_string};
use rst_tree::{Attrs, Entry, Key, Level, Node, Result, Tag, Text, Value, ValueRef};
use std::alloc::Global;

/// Puts a node: a text as a string, an element as an array of its tag, its line, an object of its attributes, and its nodes. The attributes
/// are those that it is printed with or, if `all` is true, also those that serve the transforms alone.
pub fn put_node(alloc: Global, node: &Node, all: bool, out: &mut Vec<u8>) -> Result<()>
    ensures { Adds out.old.items out.new.items (json_node_of all (with_printed_attrs None node.now)) result }
{
    match node {
        Node::Text(text) => put_string(text.as_bytes(), out),
        Node::Element {
            tag,
            attrs,
            children,
            line,
        } => {
            out.push(b'[')?;
            put_string(tag.name().as_bytes(), out)?;
            out.push(b',')?;
            put_number(*line as u64, out)?;
            out.push(b',')?;
            put_printed_attrs(alloc, *tag, attrs, *line, all, out)?;
            for child in children.as_slice() {
                out.push(b',')?;
                put_node(alloc, child, all, out)?;
            }
            out.push(b']')?;
            Ok(())
        }
    }
}

/// Puts the attributes that an element is printed with: a message has its line and its type, too.
fn put_printed_attrs(
    alloc: Global,
    tag: Tag,
    attrs: &Attrs,
    line: usize,
    all: bool,
    out: &mut Vec<u8>,
) -> Result<()>
    ensures { Adds out.old.items out.new.items (json_object (flat_map (json_attr_of all) (printed_attrs None tag attrs.now line))) result }
{
    match tag {
        Tag::SystemMessage => put_attrs(message_attrs(alloc, attrs, line)?.as_slice(), all, out),
        _ => put_attrs(attrs.as_slice(), all, out),
    }
}

/// The attributes of a message with its line and its type.
pub fn message_attrs(alloc: Global, attrs: &Attrs, line: usize) -> Result<Attrs>
    ensures { IfOk result (λ printed. printed ≡ printed_attrs None SystemMessage attrs.now line) }
{
    let mut printed = attrs.copy(alloc)?;
    printed.set(Key::Line, Value::Number(line as u64))?;
    if let Some(number) = attrs.number(Key::Level) {
        let name = Text::from_str(alloc, Level::of_number(number).name())?;
        printed.set(Key::Type_, Value::Text(name))?;
    }
    Ok(printed)
}

/// Puts an object of all attributes, or of those that are printed.
fn put_attrs(attrs: &[Entry], all: bool, out: &mut Vec<u8>) -> Result<()>
    ensures { Adds out.old.items out.new.items (json_object (flat_map (json_attr_of all) attrs.now)) result }
{
    let start = out.len();
    for attr in attrs {
        put_attr(attr, all, out)?;
    }
    enclose(start, b'{', b'}', out)
}

/// Puts an attribute after a comma, unless it isn't printed and not all are put.
fn put_attr(attr: &Entry, all: bool, out: &mut Vec<u8>) -> Result<()>
    ensures { Adds out.old.items out.new.items (flat_map after_comma (json_attr_of all attr.now)) result }
{
    if !all && attr.is_left_out() {
        return Ok(());
    }
    out.push(b',')?;
    put_string(attribute_name(attr.key()), out)?;
    out.push(b':')?;
    match attr.as_value() {
        ValueRef::Text(text) => put_string(text.as_bytes(), out),
        ValueRef::Number(number) => put_number(number, out),
        ValueRef::List(texts) => put_texts(texts, out),
    }
}

/// The name of an attribute, which is between a space and two bytes more where it is printed.
pub fn attribute_name(key: Key) -> &'static [u8]
    ensures { result.now ≡ key_name key }
{
    let opening = key.opening().as_bytes();
    &opening[1..opening.len() - 2]
}

/// Puts an array of texts.
fn put_texts(texts: &[Text], out: &mut Vec<u8>) -> Result<()>
    ensures { Adds out.old.items out.new.items (json_array (map json_string texts.now)) result }
{
    let start = out.len();
    for text in texts {
        out.push(b',')?;
        put_string(text.as_bytes(), out)?;
    }
    enclose(start, b'[', b']', out)
}
