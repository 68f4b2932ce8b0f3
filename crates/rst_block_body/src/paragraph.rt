//! Paragraphs, literal blocks and doctest blocks (Markup Specification, 'Paragraphs', 'Literal Blocks', 'Doctest
//! Blocks').
ghost use Rattle.std.specs.Prelude.{◌≡◌, [], ◌+◌, ◌-◌, ◌*◌, ◌<◌, ◌≤◌, length, drop, min, codes, slice_range, true, IfOk};
ghost use Rattle.std.specs.Cow.{cow_str_bytes};
ghost use Rattle.std.specs.Str.{chars};
ghost use Rattle.rst_text.specs.ViewBlock.{block_of};
ghost use Rattle.rst_markup_blocks.specs.declared.begun.Begun.TheVariants.{Doctest};
ghost use Rattle.rst_block_state.specs.machine.OpenBlocks.{Gives, ReadsNodes, HasMoreAt};
ghost use Rattle.rst_block_state.specs.Literals as literals;
ghost use Rattle.rst_block_state.specs.Texts.{joined, unless_blank};
ghost use Rattle.rst_tree.specs.declared.note.Level.TheVariants.{Error};
ghost use Rattle.rst_block_body.specs.TextSteps as parts;
ghost use Rattle.rst_markup_blocks.specs.Lines.{lines_while};
ghost use Rattle.rst_markup_blocks.specs.Sizes.{paragraph_size, literal_size};
ghost use Rattle.rst_markup_blocks.specs.declared.lines.LineTest.TheVariants.{Begins};
ghost use Rattle.rst_markup_lines.specs.TextStart.{begins_with};
ghost use Rattle.rst_text.specs.Block.{first_number, first_text};
ghost use Rattle.rst_text.specs.Looked.{Looked, capped};
ghost use Rattle.rst_text.specs.Reach.{reach};
ghost use Rattle.rst_block_body.specs.ReadSteps.{BeginsAt, IsReadStep};

use rst_block_nodes::{message, preserved, with_text};
use rst_block_state::{
    OpenBlock, Pass, Result, Step, announced, indented, inside, joined, number_at, source,
};
use rst_markup_blocks::{LineTest, lines_end, text_at};
use rst_markup_lines::{begins_with, ends_in_colons, first_char, is_blank, is_punctuation};
use rst_text::{Looks, View};
use rst_tree::{Level, Tag};
use std::alloc::{AllocError, Global};
use std::borrow::CowStr;

/// A doctest block: the lines up to a blank one.
pub fn doctest_block(view: &View<'_>, level: &mut OpenBlock, pass: &mut Pass) -> Result<Step>
    requires { BeginsAt (block_of view.now) level.old Doctest }
    ensures { IsReadStep 29 (block_of view.now) level.old pass.old level.new pass.new result }
{
    let alloc = pass.alloc;
    let at = level.at;
    level.close(view, pass)?;
    let end = lines_end(view, at, LineTest::Filled, &mut pass.looks);
    let text = source(alloc, view, at, end, &mut pass.looks)?;
    let node = preserved(alloc, Tag::DoctestBlock, number_at(view, at), text.as_str())?;
    level.go_to(end);
    level.push(node)?;
    Ok(Step::Next)
}

/// A paragraph, with the literal block that it announces. Of the level the open run has ended.
pub(crate) fn paragraph(view: &View<'_>, level: &mut OpenBlock, pass: &mut Pass) -> Result<()>
    requires inside { level.old.at < length (block_of view.now) }
    ensures read { let X = drop level.old.at (block_of view.now) in
        let nodes = literals.paragraph_nodes [] X pass.old.numbers in
        Gives (λ _. ReadsNodes nodes level.old level.new (level.old.at + paragraph_size X) pass.new.numbers) result }
    ensures looked { let X = drop level.old.at (block_of view.now) in
        IfOk result (λ _. Looked (paragraph_size X) (20 * reach (paragraph_size X) X) pass.old.looks pass.new.looks) }
{
    let at = level.at;
    let end = lines_end(view, at + 1, LineTest::Plain, &mut pass.looks);
    let text = text_between(pass.alloc, view, at, end, &mut pass.looks)?;
    let text = text.as_str();
    if !ends_in_colons(text) {
        put_paragraph(view, level, text, end, pass)?;
        level.go_to(end);
        return Ok(());
    }
    put_paragraph(view, level, announced(text), end, pass)?;
    literal(view, level, end, pass)
}

/// The lines from place `from` up to place `to` joined by line feeds, without a copy where it is one line.
fn text_between<'a>(
    alloc: Global,
    view: &View<'a>,
    from: usize,
    to: usize,
    looks: &mut Looks,
) -> Result<CowStr<'a, Global>, AllocError>
    requires inside { from < length (block_of view.now) }
    ensures text { IfOk result (λ text. chars (cow_str_bytes text) ≡ joined (slice_range (block_of view.now) from to)) }
    ensures most { looks.new ≤ looks.old + (to - from) }
    ensures low { IfOk result (λ _. capped (looks.old + min 1 (to - from)) ≤ looks.new) }
{
    if to == from + 1 {
        return Ok(CowStr::Borrowed(view.line(from, looks)));
    }
    Ok(CowStr::Owned(source(alloc, view, from, to, looks)?))
}

/// Puts a paragraph that ends at `end` after the last node, unless it is empty, and the message on an indented line after it.
#[inline(always)]
fn put_paragraph(
    view: &View<'_>,
    level: &mut OpenBlock,
    text: &str,
    end: usize,
    pass: &mut Pass,
) -> Result<()>
    ensures read { let nodes = parts.paragraph_with_text (chars text.now) level.old.at end (block_of view.now) pass.old.numbers in
        Gives (λ _. ReadsNodes nodes level.old level.new level.old.at pass.new.numbers) result }
    ensures looked { IfOk result (λ _. Looked 0 1 pass.old.looks pass.new.looks) }
{
    if is_blank(text) {
        return put_indentation_error(view, level, end, pass);
    }
    let alloc = pass.alloc;
    let line = number_at(view, level.at);
    let parts = view.parts(level.at);
    let numbers = &mut pass.numbers;
    let made = with_text(alloc, parts, Tag::Paragraph, line, text, line, numbers)?;
    level.push(made.element)?;
    level.append(made.notes)?;
    put_indentation_error(view, level, end, pass)
}

/// Puts the message on an indented line at place `end` after the last node, if one is there.
fn put_indentation_error(
    view: &View<'_>,
    level: &mut OpenBlock,
    end: usize,
    pass: &mut Pass,
) -> Result<()>
    ensures error { let nodes = unless_blank Error (codes "Unexpected indentation.") (drop end (block_of view.now)) in
        Gives (λ _. HasMoreAt level.old level.new nodes level.old.at) result }
    ensures numbers { pass.new.numbers ≡ pass.old.numbers }
    ensures looked { IfOk result (λ _. Looked 0 1 pass.old.looks pass.new.looks) }
{
    if is_blank(text_at(view, end, &mut pass.looks)) {
        return Ok(());
    }
    let line = number_at(view, end);
    let text = "Unexpected indentation.";
    let error = message(pass.alloc, Level::Error, line, text, None)?;
    level.push(error)
}

/// The literal block that a paragraph announces that ends at `end`.
fn literal(view: &View<'_>, level: &mut OpenBlock, end: usize, pass: &mut Pass) -> Result<()>
    requires end { end ≤ length (block_of view.now) }
    requires inside { level.old.at < length (block_of view.now) }
    requires is_later { level.old.at < end }
    ensures gone { let B = block_of view.now in
        let Z = drop end B in
        let nodes = literals.literal_nodes (first_number (drop (end - 1) B)) Z in
        Gives (λ _. HasMoreAt level.old level.new nodes (end + literal_size Z)) result }
    ensures numbers { pass.new.numbers ≡ pass.old.numbers }
    ensures looked { let Z = drop end (block_of view.now) in
        IfOk result (λ _. Looked (literal_size Z) (8 * reach (literal_size Z) Z) pass.old.looks pass.new.looks) }
{
    let alloc = pass.alloc;
    let start = lines_end(view, end, LineTest::Blank, &mut pass.looks);
    let text = text_at(view, start, &mut pass.looks);
    if begins_with(' ', text) {
        let lines = indented(view, start, &mut pass.looks);
        let text = joined(alloc, &inside(view, lines), &mut pass.looks)?;
        let line = number_at(view, start);
        let node = preserved(alloc, Tag::LiteralBlock, line, text.as_str())?;
        let warning = "Literal block ends without a blank line; unexpected unindent.";
        level.go_to(lines.to);
        level.push(node)?;
        return level.warn(view, lines.to, warning, pass);
    }
    match first_char(text) {
        Some(quote) if is_punctuation(quote) => quoted_literal(view, level, start, quote, pass),
        _ => {
            let place = if start < view.len() {
                start
            } else {
                end.saturating_sub(1)
            };
            let text = "Literal block expected; none found.";
            let warning = message(alloc, Level::Warning, number_at(view, place), text, None)?;
            level.go_to(end);
            level.push(warning)
        }
    }
}

/// A quoted literal block: lines that begin with one punctuation character.
fn quoted_literal(
    view: &View<'_>,
    level: &mut OpenBlock,
    start: usize,
    quote: char,
    pass: &mut Pass,
) -> Result<()>
    requires start { start ≤ length (block_of view.now) }
    requires inside { level.old.at < length (block_of view.now) }
    requires is_later { level.old.at < start }
    requires quoted { begins_with quote (first_text (drop start (block_of view.now))) ≡ true }
    ensures gone { let Z = drop start (block_of view.now) in
        let size = lines_while (Begins quote) Z in
        Gives (λ _. HasMoreAt level.old level.new (literals.quoted_literal size Z) (start + size)) result }
    ensures numbers { pass.new.numbers ≡ pass.old.numbers }
    ensures looked { let size = lines_while (Begins quote) (drop start (block_of view.now)) in
        IfOk result (λ _. Looked size (2 + 2 * size) pass.old.looks pass.new.looks) }
{
    let end = lines_end(view, start, LineTest::Begins(quote), &mut pass.looks);
    let text = source(pass.alloc, view, start, end, &mut pass.looks)?;
    let line = number_at(view, start);
    let node = preserved(pass.alloc, Tag::LiteralBlock, line, text.as_str())?;
    level.go_to(end);
    level.push(node)?;
    let next = text_at(view, end, &mut pass.looks);
    if is_blank(next) {
        return Ok(());
    }
    let text = if begins_with(' ', next) {
        "Unexpected indentation."
    } else {
        "Inconsistent literal block quoting."
    };
    let error = message(pass.alloc, Level::Error, number_at(view, end), text, None)?;
    level.push(error)
}
