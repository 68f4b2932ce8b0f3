//! The texts of nodes and messages, piece by piece.
ghost use Rattle.std.specs.Prelude.{◌≡◌, ℕ, ◌+◌, ◌*◌, ◌-◌, ◌<◌, ◌≤◌, ◌++◌, [], List, Option, false, length, take, replicate, IsTrue};
ghost use Rattle.rst_tree.specs.Sends.{Sends};
ghost use Rattle.rst_tree.specs.Print.{needs_backslash, escaped, spaced, value_text, attribute_text, start_tag, line_len, printed_line, text_lines, printed_node};
ghost use Rattle.rst_tree.specs.Attributes.{attr, attrs_before, following};
ghost use Rattle.rst_tree.specs.Entries.{as_value};
ghost use Rattle.rst_tree.specs.KeyNames.{is_hidden};
ghost use Rattle.rst_tree.specs.PrintedAttributes.{given_source, printed_attrs, with_source, with_printed_attrs, with_type};
ghost use Rattle.rst_tree.specs.declared.attrs.Value.TheVariants.{Text as Words, Number};
ghost use Rattle.rst_tree.specs.declared.tag.Tag.TheVariants.{SystemMessage};
ghost use Rattle.rst_tree.specs.Message.{block_text, message_of};
ghost use Rattle.std.specs.List.{flat_map, list_any};
ghost use Rattle.std.specs.Fmt.{decimal};

use crate::attrs::{Attrs, is_at, place_of};
use crate::entry::{Entry, ValueRef};
use crate::key::Key;
use crate::node::Node;
use crate::note::{Level, Note};
use crate::page::{FEW, Page, SPACES};
use crate::placing::{LANES, OfLine};
use crate::tag::Tag;
use crate::text::Text;
use itoa::Buffer;
use rst_text::{Counted, WriteCall, run_end};

/// Writes a number in decimal digits.
fn put_number<W: WriteCall, const N: usize>(out: &mut Counted<W>, page: &mut Page<N>, number: u64)
    ensures { Sends W.call_takes W.contents (decimal number) out.old page.old out.new page.new }
{
    let mut buffer = Buffer::new();
    let digits = buffer.format(number);
    page.put(out, digits.as_bytes());
}

/// Whether a member of a list has a byte that is escaped. None is looked at by itself, so that many are at once, which the compiler
/// sees where the loop is a function of its own.
#[inline(never)]
fn has_escaped(text: &[u8]) -> bool
    ensures { result ≡ list_any needs_backslash text.now }
{
    let mut found = false;
    for byte in text {
        found |= *byte == b'\\' || *byte == b' ';
    }
    found
}

/// Writes a member of a list, in which a backslash comes before a space and before a backslash. Mostly it has none, and is written
/// at once.
fn put_escaped<W: WriteCall, const N: usize>(out: &mut Counted<W>, page: &mut Page<N>, text: &[u8])
    ensures { Sends W.call_takes W.contents (escaped text.now) out.old page.old out.new page.new }
{
    if !has_escaped(text) {
        page.put(out, text);
        return;
    }
    for byte in text {
        match *byte {
            b'\\' => page.put(out, b"\\\\"),
            b' ' => page.put(out, b"\\ "),
            other => page.put(out, &[other]),
        }
    }
}

/// Writes the members of a list, parted by spaces.
fn put_texts<W: WriteCall, const N: usize>(out: &mut Counted<W>, page: &mut Page<N>, texts: &[Text])
    ensures { Sends W.call_takes W.contents (spaced texts.now) out.old page.old out.new page.new }
{
    if let [first, rest @ ..] = texts {
        put_escaped(out, page, first.as_bytes());
        for text in rest {
            page.put(out, b" ");
            put_escaped(out, page, text.as_bytes());
        }
    }
}

/// Writes a value.
fn put_value<W: WriteCall, const N: usize>(
    out: &mut Counted<W>,
    page: &mut Page<N>,
    value: ValueRef<'_>,
)
    ensures { Sends W.call_takes W.contents (value_text (as_value value.entry)) out.old page.old out.new page.new }
{
    match value {
        ValueRef::Text(text) => page.put(out, text.as_bytes()),
        ValueRef::Number(number) => put_number(out, page, number),
        ValueRef::List(texts) => put_texts(out, page, texts),
    }
}

/// Writes the attributes that an element is printed with: a document has its source too, a message its line, its source and its type
/// (Document Tree, `source` and `system_message`).
fn put_printed_attrs<W: WriteCall, const N: usize>(
    out: &mut Counted<W>,
    page: &mut Page<N>,
    tag: Tag,
    attrs: &Attrs,
    line: usize,
    source: Option<&str>,
)
    ensures { Sends W.call_takes W.contents (flat_map attribute_text (printed_attrs (given_source source.entry) tag attrs.now line)) out.old page.old out.new page.new }
{
    match tag {
        Tag::Document => put_source_and_type(out, page, attrs.as_slice(), source, None),
        Tag::SystemMessage => {
            let level = attrs.number(Key::Level);
            let rest = put_before(out, page, attrs.as_slice(), Key::Line);
            page.put(out, Key::Line.opening().as_bytes());
            put_number(out, page, line as u64);
            page.put(out, b"\"");
            put_source_and_type(out, page, rest, source, level);
        }
        _ => put_attrs(out, page, attrs.as_slice()),
    }
}

/// Writes the attributes with the source, if one is given, and the type of the level that has a number, if one is given.
fn put_source_and_type<W: WriteCall, const N: usize>(
    out: &mut Counted<W>,
    page: &mut Page<N>,
    attrs: &[Entry],
    source: Option<&str>,
    level: Option<u64>,
)
    ensures { Sends W.call_takes W.contents (flat_map attribute_text (with_type level (with_source (given_source source.entry) attrs.now))) out.old page.old out.new page.new }
{
    match source {
        None => put_with_type(out, page, attrs, level),
        Some(source) => {
            let rest = put_before(out, page, attrs, Key::Source);
            put_text_attr(out, page, Key::Source, source);
            put_with_type(out, page, rest, level);
        }
    }
}

/// Writes the attributes with the type of the level that has a number, if one is given.
fn put_with_type<W: WriteCall, const N: usize>(
    out: &mut Counted<W>,
    page: &mut Page<N>,
    attrs: &[Entry],
    level: Option<u64>,
)
    ensures { Sends W.call_takes W.contents (flat_map attribute_text (with_type level attrs.now)) out.old page.old out.new page.new }
{
    match level {
        None => put_attrs(out, page, attrs),
        Some(number) => {
            let rest = put_before(out, page, attrs, Key::Type_);
            put_text_attr(out, page, Key::Type_, Level::of_number(number).name());
            put_attrs(out, page, rest);
        }
    }
}

/// Writes the first attributes, whose names come before the name of one that is added, and gives those after it. One of that name isn't
/// among them: the added one takes its place.
fn put_before<'a, W: WriteCall, const N: usize>(
    out: &mut Counted<W>,
    page: &mut Page<N>,
    attrs: &'a [Entry],
    key: Key,
) -> &'a [Entry]
    ensures sent { Sends W.call_takes W.contents (flat_map attribute_text (attrs_before key attrs.now)) out.old page.old out.new page.new }
    ensures rest { result.now ≡ following key attrs.now }
{
    let place = place_of(attrs, key);
    put_attrs(out, page, &attrs[..place]);
    if is_at(attrs, place, key) {
        return &attrs[place + 1..];
    }
    &attrs[place..]
}

/// Writes an attribute whose value is a text and that doesn't serve the transforms alone.
fn put_text_attr<W: WriteCall, const N: usize>(
    out: &mut Counted<W>,
    page: &mut Page<N>,
    key: Key,
    text: &str,
)
    requires { is_hidden key ≡ false }
    ensures { Sends W.call_takes W.contents (attribute_text (attr key (Words text.now))) out.old page.old out.new page.new }
{
    page.put(out, key.opening().as_bytes());
    page.put(out, text.as_bytes());
    page.put(out, b"\"");
}

/// Writes the attributes that are printed.
fn put_attrs<W: WriteCall, const N: usize>(
    out: &mut Counted<W>,
    page: &mut Page<N>,
    attrs: &[Entry],
)
    ensures { Sends W.call_takes W.contents (flat_map attribute_text attrs.now) out.old page.old out.new page.new }
{
    for attr in attrs {
        if attr.is_left_out() {
            continue;
        }
        page.put(out, attr.key().opening().as_bytes());
        put_value(out, page, attr.as_value());
        page.put(out, b"\"");
    }
}

/// Writes the indentation of a level.
fn put_indent<W: WriteCall, const N: usize>(out: &mut Counted<W>, page: &mut Page<N>, level: usize)
    ensures { Sends W.call_takes W.contents (replicate (4 * level) 32) out.old page.old out.new page.new }
{
    let mut left = level;
    while left > FEW {
        page.put(out, &SPACES);
        left -= FEW;
    }
    page.put(out, &SPACES[..4 * left]);
}

/// Writes the indentation of a level and three texts after it.
#[inline(always)]
fn put_indented<W: WriteCall, const N: usize>(
    out: &mut Counted<W>,
    page: &mut Page<N>,
    level: usize,
    first: &[u8],
    second: &[u8],
    third: &[u8],
)
    requires { length first.now + length third.now ≤ 64 }
    ensures { Sends W.call_takes W.contents (replicate (4 * level) 32 ++ first.now ++ second.now ++ third.now) out.old page.old out.new page.new }
{
    // Mostly there is room for all, so one test replaces four.
    let most = second
        .len()
        .saturating_add(SPACES.len() + first.len() + third.len());
    if level <= FEW && page.has_room(most) && !out.failed() {
        page.gather_indented(level, first, second, third);
        return;
    }
    put_one_by_one(out, page, level, first, second, third);
}

/// The same, whether or not there is room for all.
#[cold]
#[inline(never)]
fn put_one_by_one<W: WriteCall, const N: usize>(
    out: &mut Counted<W>,
    page: &mut Page<N>,
    level: usize,
    first: &[u8],
    second: &[u8],
    third: &[u8],
)
    ensures { Sends W.call_takes W.contents (replicate (4 * level) 32 ++ first.now ++ second.now ++ third.now) out.old page.old out.new page.new }
{
    put_indent(out, page, level);
    page.put(out, first);
    page.put(out, second);
    page.put(out, third);
}

/// Writes the first line of a text after the indentation of a level, and gives how many bytes it has without its end, which the last
/// line may lack.
#[inline(always)]
fn put_line<W: WriteCall, const N: usize>(
    out: &mut Counted<W>,
    page: &mut Page<N>,
    level: usize,
    text: &[u8],
) -> usize
    ensures line { result ≡ line_len text.now }
    ensures within { result ≤ length text.now }
    ensures sent { Sends W.call_takes W.contents (printed_line (level, take result text.now)) out.old page.old out.new page.new }
{
    // Mostly there is room for the whole text, whose line then needs no search before it is copied.
    let most = text.len().saturating_add(SPACES.len() + LANES + 1);
    if level <= FEW && page.has_room(most) && !out.failed() {
        return page.gather_line(level, text);
    }
    put_found_line(out, page, level, text)
}

/// The same, whether or not there is room for the whole text.
#[inline(never)]
fn put_found_line<W: WriteCall, const N: usize>(
    out: &mut Counted<W>,
    page: &mut Page<N>,
    level: usize,
    text: &[u8],
) -> usize
    ensures line { result ≡ line_len text.now }
    ensures sent { Sends W.call_takes W.contents (printed_line (level, take result text.now)) out.old page.old out.new page.new }
{
    let end = run_end::<OfLine>(text, 0);
    put_indented(out, page, level, b"", &text[..end], b"\n");
    end
}

/// Writes the lines of a text, each after its indentation. The last may have no LF.
fn put_text<W: WriteCall, const N: usize>(
    out: &mut Counted<W>,
    page: &mut Page<N>,
    level: usize,
    text: &[u8],
)
    ensures { Sends W.call_takes W.contents (flat_map (λ l. printed_line (level, l)) (text_lines text.now)) out.old page.old out.new page.new }
{
    let mut rest = text;
    while !rest.is_empty() {
        let end = put_line(out, page, level, rest);
        let following = &rest[end..];
        rest = &following[following.len().min(1)..];
    }
}

/// Whether an element is printed without attributes.
#[inline(always)]
fn is_bare(tag: Tag, attrs: &Attrs) -> bool
    ensures { IsTrue result → (source : Option (List ℕ)) (line : ℕ) → printed_attrs source tag attrs.now line ≡ [] }
{
    match tag {
        Tag::Document | Tag::SystemMessage => false,
        _ => attrs.as_slice().is_empty(),
    }
}

/// Writes the first line of an element, with the attributes that it is printed with.
#[inline(always)]
fn put_tag<W: WriteCall, const N: usize>(
    out: &mut Counted<W>,
    page: &mut Page<N>,
    level: usize,
    tag: Tag,
    attrs: &Attrs,
    line: usize,
    source: Option<&str>,
)
    ensures { Sends W.call_takes W.contents (printed_line (level, start_tag tag (printed_attrs (given_source source.entry) tag attrs.now line))) out.old page.old out.new page.new }
{
    // Most elements have none.
    if is_bare(tag, attrs) {
        put_indented(out, page, level, b"<", tag.name().as_bytes(), b">\n");
        return;
    }
    put_tag_with_attrs(out, page, level, tag, attrs, line, source);
}

/// The same, whether or not there are any.
#[inline(never)]
fn put_tag_with_attrs<W: WriteCall, const N: usize>(
    out: &mut Counted<W>,
    page: &mut Page<N>,
    level: usize,
    tag: Tag,
    attrs: &Attrs,
    line: usize,
    source: Option<&str>,
)
    ensures { Sends W.call_takes W.contents (printed_line (level, start_tag tag (printed_attrs (given_source source.entry) tag attrs.now line))) out.old page.old out.new page.new }
{
    put_indented(out, page, level, b"<", tag.name().as_bytes(), b"");
    put_printed_attrs(out, page, tag, attrs, line, source);
    page.put(out, b">\n");
}

/// Writes a node at a level: its first line, and the nodes in it one level deeper, each with the attributes that it is printed with.
pub fn put_node<W: WriteCall, const N: usize>(
    out: &mut Counted<W>,
    page: &mut Page<N>,
    level: usize,
    node: &Node,
    source: Option<&str>,
)
    ensures { Sends W.call_takes W.contents (printed_node level (with_printed_attrs (given_source source.entry) node.now)) out.old page.old out.new page.new }
{
    match node {
        Node::Element {
            tag,
            attrs,
            children,
            line,
        } => {
            put_tag(out, page, level, *tag, attrs, *line, source);
            let inner = level.saturating_add(1);
            for child in children.as_slice() {
                // Most nodes are texts, which need no call.
                match child {
                    Node::Text(text) => put_text(out, page, inner, text.as_bytes()),
                    Node::Element { .. } => put_node(out, page, inner, child, source),
                }
            }
        }
        Node::Text(text) => put_text(out, page, level, text.as_bytes()),
    }
}

/// Writes the source text that a message quotes, after a blank line.
fn put_block<W: WriteCall, const N: usize>(
    out: &mut Counted<W>,
    page: &mut Page<N>,
    block: &Option<Text>,
)
    ensures { Sends W.call_takes W.contents (block_text block.now) out.old page.old out.new page.new }
{
    if let Some(text) = block {
        page.put(out, b"\n");
        page.put(out, text.as_bytes());
        page.put(out, b"\n");
    }
}

/// Writes a message, after its head: `source:line: (TYPE/level) `.
pub fn put_message<W: WriteCall, const N: usize>(
    out: &mut Counted<W>,
    page: &mut Page<N>,
    source: &str,
    note: &Note,
)
    ensures { Sends W.call_takes W.contents (message_of source.now note.now) out.old page.old out.new page.new }
{
    page.put(out, source.as_bytes());
    page.put(out, b":");
    put_number(out, page, note.line as u64);
    page.put(out, b": (");
    page.put(out, note.level.name().as_bytes());
    page.put(out, b"/");
    put_number(out, page, u64::from(note.level.number()));
    page.put(out, b") ");
    page.put(out, note.text.as_bytes());
    page.put(out, b"\n");
    put_block(out, page, &note.block);
}
