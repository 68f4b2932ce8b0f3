//! Line blocks.
ghost use Rattle.std.specs.Prelude.{◌≡◌, ◌≤◌, ◌-◌, suc, length, Ok};
ghost use Rattle.rst_tree.specs.declared.tag.Tag.TheVariants.{Line};
ghost use Rattle.rst_block_nodes.specs.LineBlocks.{MakesLineBlock, line_block, indented, first_line, least_indent, deeper_len};

use super::fault::BlockFault;
use super::nodes::element_of;
use super::numbers::Numbers;
use super::texted::{Texted, with_text};
use rst_settings::Parts;
use rst_tree::{Attrs, Result, Tag};
use std::alloc::Global;
use std::marker::Model;

/// A line of a line block: how deep it is indented after its bar (none where nothing follows the bar), the number of
/// the line with the bar, the number of the line that its text begins in, the text, and whether e-mail addresses are asked for in it.
/// A line of the directive has no bar.
#[derive(Debug, Drop)]
pub struct BarText {
    pub indent: Option<usize>,
    pub line: usize,
    pub text_line: usize,
    pub text: String,
    pub parts: Parts,
}

/// A line with the indentation that it counts with. Contracts see its text as characters.
#[derive(Drop)]
struct IndentedText {
    indent: usize,
    line: usize,
    text_line: usize,
    text: String,
    parts: Parts,
}

impl Model for IndentedText {
    ghost use Rattle.std.specs.Prelude.{string_bytes, chars};
    ghost use Rattle.rst_block_nodes.specs.LineBlocks.{IndentedLine};

    ghost Value = { IndentedLine };

    ghost view = { λ l. record { indent = l.indent; line = l.line; text_line = l.text_line; text = chars (string_bytes l.text); parts = l.parts } };
}

/// The line block of some lines, of a level of nesting (Markup Specification, 'Line Blocks'), and the messages of their
/// texts. Lines that are deeper than the least indentation form line blocks of the next level, as many neighbours as there
/// are in each. A line with nothing after its bar is as deep as the one before it, the first not at all.
///
/// Refusals: [`BlockFault::TooDeep`] where a line block's level is above `deepest`, and
/// [`BlockFault::NoMemory`].
pub fn line_block(
    alloc: Global,
    lines: Vec<BarText>,
    level: usize,
    deepest: usize,
    numbers: &mut Numbers,
) -> Result<Texted, BlockFault>
    ensures { MakesLineBlock (line_block (suc deepest - level) (indented lines.items) numbers.old) numbers.new result }
{
    let mut texts = Vec::new(alloc);
    let mut last = 0;
    for bar in lines {
        last = bar.indent.unwrap_or(last);
        texts.push(IndentedText {
            indent: last,
            line: bar.line,
            text_line: bar.text_line,
            text: bar.text,
            parts: bar.parts,
        })?;
    }
    if deepest < level {
        return Err(BlockFault::TooDeep {
            line: first_line(&texts),
        });
    }
    block_of(alloc, &texts, deepest - level, numbers)
}

/// The number of the first line, 0 where there is none.
fn first_line(lines: &[IndentedText]) -> usize
    ensures { result ≡ first_line lines.now }
{
    lines.first().map_or(0, |first| first.line)
}

/// The least indentation, 0 where there is no line.
fn least_indent(lines: &[IndentedText]) -> usize
    ensures { result ≡ least_indent lines.now }
{
    let indents = lines.iter().map(|line| line.indent);
    indents
        .reduce(|least, indent| least.min(indent))
        .unwrap_or(0)
}

/// How many lines at the front are deeper than `least`.
fn deeper_len(lines: &[IndentedText], least: usize) -> usize
    ensures value { result ≡ deeper_len least lines.now }
    ensures within { result ≤ length lines.now }
{
    lines.iter().take_while(|line| line.indent > least).count()
}

/// The line block of some lines, inside which `levels` more may nest.
///
/// Each line is looked at once for each line block that it is in, and each message is moved once for each.
fn block_of(
    alloc: Global,
    lines: &[IndentedText],
    levels: usize,
    numbers: &mut Numbers,
) -> Result<Texted, BlockFault>
    ensures { MakesLineBlock (line_block (suc levels) lines.now numbers.old) numbers.new result }
{
    // The number fits a `u64`: the proof needs it.
    let _given = numbers.given();
    let least = least_indent(lines);
    let mut nodes = Vec::new(alloc);
    let mut notes = Vec::new(alloc);
    let mut place = 0;
    while place < lines.len() {
        let run = deeper_len(&lines[place..], least);
        let bar = &lines[place];
        if run == 0 {
            let text = bar.text.as_str();
            let (line, text_line) = (bar.line, bar.text_line);
            let mut made = with_text(alloc, &bar.parts, Tag::Line, line, text, text_line, numbers)?;
            nodes.push(made.element)?;
            notes.append(&mut made.notes)?;
            place += 1;
            continue;
        }
        if levels == 0 {
            return Err(BlockFault::TooDeep { line: bar.line });
        }
        let inner = &lines[place..place + run];
        let mut made = block_of(alloc, inner, levels - 1, numbers)?;
        nodes.push(made.element)?;
        notes.append(&mut made.notes)?;
        place += run;
    }
    let line = first_line(lines);
    let element = element_of(Tag::LineBlock, Attrs::new(alloc), nodes, line);
    Ok(Texted { element, notes })
}
