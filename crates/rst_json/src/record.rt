//! Trees as records.

ghost use Rattle.std.specs.Prelude.{◌≡◌, ◌≤◌, ◌+◌, ◌++◌, length, None, take, drop, flat_map};
ghost use Rattle.rst_json.specs.Json.{Adds};
ghost use Rattle.rst_json.specs.Records.{attr_record_of, node_record_of, sized, value_record, word};
ghost use Rattle.rst_tree.specs.Entries.{as_value};
ghost use Rattle.rst_tree.specs.PrintedAttributes.{printed_attrs, with_printed_attrs};

use crate::element::{attribute_name, message_attrs};
use rst_tree::{Attrs, Entry, Node, Result, Tag, ValueRef};
use std::alloc::Global;

/// Puts a node after its length: a text; or an element with its line, its tag, its attributes, and its nodes. The attributes are those that
/// it is printed with or, if `all` is true, also those that serve the transforms alone.
pub fn put_record(alloc: Global, node: &Node, all: bool, out: &mut Vec<u8>) -> Result<()>
    ensures { Adds out.old.items out.new.items (node_record_of all (with_printed_attrs None node.now)) result }
{
    let start = out.len();
    put_word(0, out)?;
    match node {
        Node::Text(text) => {
            out.push(0)?;
            out.extend_from_slice(text.as_bytes())?;
            seal(start, out);
            Ok(())
        }
        Node::Element {
            tag,
            attrs,
            children,
            line,
        } => {
            out.push(1)?;
            put_word(*line as u64, out)?;
            put_sized(tag.name().as_bytes(), out)?;
            put_printed_attrs(alloc, *tag, attrs, *line, all, out)?;
            for child in children.as_slice() {
                put_record(alloc, child, all, out)?;
            }
            seal(start, out);
            Ok(())
        }
    }
}

/// Puts the attributes that an element is printed with: a message has its line and its type, too.
fn put_printed_attrs(
    alloc: Global,
    tag: Tag,
    attrs: &Attrs,
    line: usize,
    all: bool,
    out: &mut Vec<u8>,
) -> Result<()>
    ensures { Adds out.old.items out.new.items (sized (flat_map (attr_record_of all) (printed_attrs None tag attrs.now line))) result }
{
    match tag {
        Tag::SystemMessage => put_attrs(message_attrs(alloc, attrs, line)?.as_slice(), all, out),
        _ => put_attrs(attrs.as_slice(), all, out),
    }
}

/// Puts all attributes, or those that are printed, after their length.
fn put_attrs(attrs: &[Entry], all: bool, out: &mut Vec<u8>) -> Result<()>
    ensures { Adds out.old.items out.new.items (sized (flat_map (attr_record_of all) attrs.now)) result }
{
    let start = out.len();
    put_word(0, out)?;
    for attr in attrs {
        put_attr(attr, all, out)?;
    }
    seal(start, out);
    Ok(())
}

/// Puts an attribute after its length, unless it isn't printed and not all are put.
fn put_attr(attr: &Entry, all: bool, out: &mut Vec<u8>) -> Result<()>
    ensures { Adds out.old.items out.new.items (attr_record_of all attr.now) result }
{
    if !all && attr.is_left_out() {
        return Ok(());
    }
    let start = out.len();
    put_word(0, out)?;
    put_sized(attribute_name(attr.key()), out)?;
    put_value(attr.as_value(), out)?;
    seal(start, out);
    Ok(())
}

/// Puts an attribute's value after its kind.
fn put_value(meant: ValueRef, out: &mut Vec<u8>) -> Result<()>
    ensures { Adds out.old.items out.new.items (value_record (as_value meant.entry)) result }
{
    match meant {
        ValueRef::Text(text) => {
            out.push(0)?;
            out.extend_from_slice(text.as_bytes())?;
            Ok(())
        }
        ValueRef::Number(number) => {
            out.push(1)?;
            put_word(number, out)
        }
        ValueRef::List(texts) => {
            out.push(2)?;
            for text in texts {
                put_sized(text.as_bytes(), out)?;
            }
            Ok(())
        }
    }
}

/// Puts some bytes after their number.
fn put_sized(bytes: &[u8], out: &mut Vec<u8>) -> Result<()>
    ensures { Adds out.old.items out.new.items (sized bytes.now) result }
{
    put_word(bytes.len() as u64, out)?;
    out.extend_from_slice(bytes)?;
    Ok(())
}

/// Puts a number in eight bytes, the lowest first.
fn put_word(number: u64, out: &mut Vec<u8>) -> Result<()>
    ensures { Adds out.old.items out.new.items (word number) result }
{
    out.extend_from_slice(&number.to_le_bytes())?;
    Ok(())
}

/// Writes into the eight bytes at a place how many bytes follow them.
fn seal(start: usize, out: &mut Vec<u8>)
    requires { start + 8 ≤ length out.old.items }
    ensures { out.new.items ≡ take start out.old.items ++ sized (drop (start + 8) out.old.items) }
{
    let length = out.len() - start - 8;
    out[start..start + 8].copy_from_slice(&(length as u64).to_le_bytes());
}
