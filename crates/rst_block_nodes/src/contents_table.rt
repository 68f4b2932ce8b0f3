//! Tables of contents, before their entries are made.
ghost use Rattle.std.specs.Prelude.{◌≡◌, Ok, IfOk, option_map};
ghost use Rattle.std.specs.Str.{chars};
ghost use Rattle.rst_markup_directives.specs.Options.{choices_in};
ghost use Rattle.rst_block_nodes.specs.TableOfContents as spec;

use super::contents::append;
use super::nodes::{element_of, plain};
use super::numbers::Numbers;
use super::settings::{Holder, set_options};
use super::texted::with_text;
use super::values::{name_value, text_value};
use rst_markup_directives::{OptionName, Setting};
use rst_settings::Parts;
use rst_tree::{Attrs, Key, Node, Result, Tag, Text, Texts, Value};
use std::alloc::Global;

/// The title of a table without an argument.
const USUAL_TITLE: &str = "Contents";

/// A table of contents in a line, whose last node is the place of its entries, and the messages on the title, whose text is the argument
/// (Docutils, Directives, 'Table of Contents').
///
/// The only refusal is [`AllocError`].
#[tactic(auto, using(crate::proofs::ContentsLemmas::titled_read))]
pub fn table_of_contents(
    alloc: Global,
    parts: &Parts,
    options: &[Setting],
    title: Option<&str>,
    line: usize,
    numbers: &mut Numbers,
) -> Result<Vec<Node>>
    ensures { IfOk result (λ nodes. spec.table_of_contents parts.now (choices_in options.now) (option_map (λ text. chars text.now) title.entry) line numbers.old ≡ Ok (nodes.items, numbers.new)) }
{
    let Some(text) = title else {
        let mut nodes = Vec::new(alloc);
        nodes.push(untitled_table(alloc, options, line)?)?;
        return Ok(nodes);
    };
    let made = with_text(alloc, parts, Tag::Title, line, text, line, numbers)?;
    let table = titled_table(alloc, options, made.element, made.notes.len(), line)?;
    let mut nodes = Vec::new(alloc);
    nodes.push(table)?;
    append(&mut nodes, made.notes)?;
    Ok(nodes)
}

/// A table without an argument: it has the usual title, unless it is local, and its name.
fn untitled_table(alloc: Global, options: &[Setting], line: usize) -> Result<Node>
    ensures { IfOk result (λ node. node ≡ spec.untitled_table (choices_in options.now) line) }
{
    let mut nodes = Vec::new(alloc);
    if !is_local(options) {
        nodes.push(plain(alloc, Tag::Title, line, USUAL_TITLE)?)?;
    }
    table(alloc, options, nodes, USUAL_TITLE, 0, line)
}

/// A table with a title, which gives it its name. The messages on the title follow the table, so it has their number in place of the title.
fn titled_table(
    alloc: Global,
    options: &[Setting],
    mut title: Node,
    notes: usize,
    line: usize,
) -> Result<Node>
    ensures { IfOk result (λ node. node ≡ spec.titled_table (choices_in options.now) title notes line) }
{
    let text = title.text_of(alloc)?;
    if let Node::Element { attrs, .. } = &mut title {
        let _count = attrs.remove(Key::TextMessages);
    }
    let mut nodes = Vec::new(alloc);
    nodes.push(title)?;
    table(alloc, options, nodes, text.as_str(), notes, line)
}

/// A table with the nodes before the place of its entries, and the text that gives it its name.
fn table(
    alloc: Global,
    options: &[Setting],
    mut nodes: Vec<Node>,
    text: &str,
    notes: usize,
    line: usize,
) -> Result<Node>
    ensures { IfOk result (λ node. node ≡ spec.table (choices_in options.now) nodes.items text.now notes line) }
{
    let mut attrs = Attrs::new(alloc);
    set_options(alloc, &mut attrs, Holder::Body, options)?;
    set_classes(alloc, &mut attrs, is_local(options))?;
    attrs.set(Key::OwnName, name_value(alloc, text)?)?;
    attrs.set(Key::TextMessages, Value::Number(notes as u64))?;
    nodes.push(entries(alloc, options, line)?)?;
    Ok(element_of(Tag::Topic, attrs, nodes, line))
}

/// Sets the classes of a table: `contents`, those that were set before, and `local` if it is local.
fn set_classes(alloc: Global, attrs: &mut Attrs, local: bool) -> Result<()>
    ensures { IfOk result (λ _. attrs.new ≡ spec.with_classes local attrs.old) }
{
    let mut classes = Texts::new(alloc);
    classes.push(Text::from_str(alloc, "contents")?)?;
    if let Some(Value::List(own)) = attrs.remove(Key::Classes) {
        for class in own.as_slice() {
            classes.push(class.copy()?)?;
        }
    }
    if local {
        classes.push(Text::from_str(alloc, "local")?)?;
    }
    attrs.set(Key::Classes, Value::List(classes))
}

/// The place of the entries, with what the options say of them.
fn entries(alloc: Global, options: &[Setting], line: usize) -> Result<Node>
    ensures { IfOk result (λ node. node ≡ spec.entries (choices_in options.now) line) }
{
    let mut attrs = Attrs::lone(alloc, Key::Backlinks, text_value(alloc, "entry")?)?;
    set_options(alloc, &mut attrs, Holder::Entries, options)?;
    Ok(element_of(Tag::Contents, attrs, Vec::new(alloc), line))
}

/// Whether the options make a table local: it shows the sections around it alone.
fn is_local(options: &[Setting]) -> bool
    ensures { result ≡ spec.is_local (choices_in options.now) }
{
    for setting in options {
        if matches!(setting.option, OptionName::Local) {
            return true;
        }
    }
    false
}
