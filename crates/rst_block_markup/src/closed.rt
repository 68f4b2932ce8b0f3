//! Directives that hold no blocks: images and texts (Directives, 'Image', 'Code', 'Rubric', 'Line Block', 'Parsed Literal Block', 'Math',
//! 'Table of Contents').
ghost use Rattle.std.specs.Prelude.{◌≡◌, suc, ◌+◌, ◌-◌, ◌<◌, ◌∷◌, ◌++◌, length, string_bytes, drop, option_map, Ok, IfOk};
ghost use Rattle.std.specs.Str.{chars};
ghost use Rattle.rst_text.specs.Block.{Block, Line, first_number};
ghost use Rattle.rst_text.specs.Looked.{Looked};
ghost use Rattle.rst_text.specs.ViewBlock.{block_of};
ghost use Rattle.rst_block_state.specs.Directives as meaning;
ghost use Rattle.rst_block_state.specs.LineRuns.{white_len};
ghost use Rattle.rst_block_markup.specs.MarkupSteps.{AreVerse, HoldsNodes, IsVerse, marked_text, read_of_directive, text_lines};
ghost use Rattle.rst_block_state.specs.machine.Meanings.{Keeps, deepest};
ghost use Rattle.rst_markup_directives.specs.Call.{IsArgumentIn, IsContentIn};
ghost use Rattle.rst_block_state.specs.machine.OpenBlocks.{Gives};
ghost use Rattle.rst_block_state.specs.Texts.{spelled};

use super::contents::contents_nodes;
use super::directive::Found;
use rst_block_nodes::{
    BarText, append, formulas, image, line_block, literal_block, with_options, with_text,
};
use rst_block_state::{DEEPEST, Pass, Result, alone, inside, joined, number_at};
use rst_markup_directives::{Argument, Content, ContentKind};
use rst_markup_lines::is_blank;
use rst_settings::Parts;
use rst_text::{Looks, View, is_white, skip};
use rst_tree::Node;
use std::alloc::{AllocError, Global};

/// What a directive in line `at` leaves that holds no blocks, in a block inside `depth` others, and the messages on its text.
pub(crate) fn closed_nodes(
    view: &View<'_>,
    at: usize,
    depth: usize,
    found: &Found,
    pass: &mut Pass,
) -> Result<Vec<Node>>
    requires content { IsContentIn (block_of view.now) found.now.content }
    requires argument { IsArgumentIn (block_of view.now) found.now.argument }
    ensures read { let line = first_number (drop at (block_of view.now)) in
        let read = read_of_directive found.now in
        let nodes = meaning.closed_nodes (suc deepest - depth) (block_of view.now) line read in
        Keeps result (λ made. Ok (made.items, pass.new.numbers)) (nodes pass.old.numbers) }
    ensures looked { IfOk result (λ _. Looked 0 (text_lines found.now) pass.old.looks pass.new.looks) }
{
    let alloc = pass.alloc;
    let line = number_at(view, at);
    match found.kind.content {
        ContentKind::Marked => {
            let text = content_text(alloc, view, found.content, &mut pass.looks)?;
            text_element(found, view.parts(0), line, true, text.as_str(), pass)
        }
        ContentKind::Verse => verse(view, depth, found, pass),
        ContentKind::Formulas => {
            let text = content_text(alloc, view, found.content, &mut pass.looks)?;
            let options = found.options.as_slice();
            Ok(formulas(alloc, found.kind.element, options, text.as_str(), line)?)
        }
        ContentKind::Entries => contents_nodes(view, line, found, pass),
        _ => closed_by(view, line, found, pass),
    }
}

/// The same of a directive whose content says nothing else, by its argument.
fn closed_by(view: &View<'_>, line: usize, found: &Found, pass: &mut Pass) -> Result<Vec<Node>>
    requires content { IsContentIn (block_of view.now) found.now.content }
    requires argument { IsArgumentIn (block_of view.now) found.now.argument }
    ensures read { let read = read_of_directive found.now in
        let nodes = meaning.closed_by read.argument (block_of view.now) line read in
        Gives (HoldsNodes nodes pass.old.numbers pass.new.numbers) result }
    ensures looked { IfOk result (λ _. Looked 0 (text_lines found.now) pass.old.looks pass.new.looks) }
{
    let alloc = pass.alloc;
    match &found.argument {
        Argument::Title(title) => {
            let text = joined(alloc, &inside(view, *title), &mut pass.looks)?;
            text_element(found, view.parts(0), line, false, text.as_str(), pass)
        }
        _ => {
            let element = closed_element(alloc, view, line, found, None, &mut pass.looks)?;
            Ok(alone(alloc, element)?)
        }
    }
}

/// A directive without blocks and markup, which has the number of its line. `alt` is the alternate text of an image whose options
/// have none.
pub(crate) fn closed_element(
    alloc: Global,
    view: &View<'_>,
    line: usize,
    found: &Found,
    alt: Option<&str>,
    looks: &mut Looks,
) -> Result<Node>
    requires { IsContentIn (block_of view.now) found.now.content }
    ensures element { let read = read_of_directive found.now in
        let alt = option_map (λ text. text.now) alt.entry in
        Gives (λ node. node ≡ meaning.element_by read.argument alt (block_of view.now) line read) result }
    ensures looked { IfOk result (λ _. Looked 0 (text_lines found.now) looks.old looks.new) }
{
    let options = found.options.as_slice();
    match &found.argument {
        Argument::Uri(uri) => Ok(image(alloc, uri.as_str(), options, line, false, alt)?),
        argument => {
            let text = content_text(alloc, view, found.content, looks)?;
            let element = found.kind.element;
            Ok(literal_block(alloc, element, argument, options, text.as_str(), line)?)
        }
    }
}

/// The element of a directive that holds a text with inline markup, and the messages on the text.
fn text_element(
    found: &Found,
    parts: &Parts,
    line: usize,
    literal: bool,
    text: &str,
    pass: &mut Pass,
) -> Result<Vec<Node>>
    ensures read { let read = read_of_directive found.now in
        Gives (HoldsNodes (marked_text literal read parts.now line (chars text.now)) pass.old.numbers pass.new.numbers) result }
    ensures looks { pass.new.looks ≡ pass.old.looks }
{
    let alloc = pass.alloc;
    let element = found.kind.element;
    let made = with_text(alloc, parts, element, line, text, line, &mut pass.numbers)?;
    let element = with_options(alloc, made.element, literal, found.options.as_slice())?;
    let mut nodes = alone(alloc, element)?;
    append(&mut nodes, made.notes)?;
    Ok(nodes)
}

/// The line block of a directive's content, in a block inside `depth` others, and the messages on its lines.
fn verse(view: &View<'_>, depth: usize, found: &Found, pass: &mut Pass) -> Result<Vec<Node>>
    requires { IsContentIn (block_of view.now) found.now.content }
    ensures read { let read = read_of_directive found.now in
        let nodes = meaning.verse_nodes (suc deepest - depth) read (meaning.content_lines (block_of view.now) read.content) in
        Keeps result (λ made. Ok (made.items, pass.new.numbers)) (nodes pass.old.numbers) }
    ensures looked { IfOk result (λ _. Looked 0 (text_lines found.now) pass.old.looks pass.new.looks) }
{
    let alloc = pass.alloc;
    let mut lines = Vec::new(alloc);
    add_lines(
        alloc,
        &mut lines,
        &inside(view, found.content.first),
        &mut pass.looks,
    )?;
    add_lines(
        alloc,
        &mut lines,
        &inside(view, found.content.second),
        &mut pass.looks,
    )?;
    let made = line_block(alloc, lines, depth, DEEPEST, &mut pass.numbers)?;
    let element = with_options(alloc, made.element, false, found.options.as_slice())?;
    let mut nodes = alone(alloc, element)?;
    append(&mut nodes, made.notes)?;
    Ok(nodes)
}

/// Puts the lines of a view after other lines of a line block.
fn add_lines(
    alloc: Global,
    lines: &mut Vec<BarText>,
    view: &View<'_>,
    looks: &mut Looks,
) -> Result<(), AllocError>
    ensures verse { IfOk result (λ _. (B : Block) → AreVerse lines.old.items B → AreVerse lines.new.items (B ++ block_of view.now)) }
    ensures looked { IfOk result (λ _. Looked 0 (length (block_of view.now)) looks.old looks.new) }
{
    for at in 0..view.len() {
        lines.push(line_of_text(alloc, view, at, looks)?)?;
    }
    Ok(())
}

/// A line of a text as one of a line block, which is as deep as many white characters are at its front. An empty one has no
/// indentation of its own.
fn line_of_text(
    alloc: Global,
    view: &View<'_>,
    at: usize,
    looks: &mut Looks,
) -> Result<BarText, AllocError>
    requires { at < length (block_of view.now) }
    ensures line { IfOk result (λ text. (l : Line) (ls : Block) → l ∷ ls ≡ drop at (block_of view.now) → IsVerse text l) }
    ensures looked { Looked 1 1 looks.old looks.new }
{
    let text = view.line(at, looks);
    let line = view.number(at);
    let white = white_len(text);
    Ok(BarText {
        indent: if is_blank(text) { None } else { Some(white) },
        line,
        text_line: line,
        text: String::from_str(alloc, skip(text, white))?,
        parts: *view.parts(at),
    })
}

/// How many white characters a text begins with.
fn white_len(text: &str) -> usize
    ensures { result ≡ white_len (chars text.now) }
{
    text.chars().take_while(|c| is_white(*c)).count()
}

/// The text of a directive's content: the lines before the options, and those after them.
fn content_text(
    alloc: Global,
    view: &View<'_>,
    content: Content,
    looks: &mut Looks,
) -> Result<String, AllocError>
    requires { IsContentIn (block_of view.now) content }
    ensures bytes { IfOk result (λ text. string_bytes text ≡ spelled (meaning.content_lines (block_of view.now) content)) }
    ensures looked { let most = (content.first.to - content.first.from) + (content.second.to - content.second.from) in
        IfOk result (λ _. Looked 0 most looks.old looks.new) }
{
    let first = inside(view, content.first);
    let second = inside(view, content.second);
    if first.len() == 0 {
        return Ok(joined(alloc, &second, looks)?);
    }
    let mut text = joined(alloc, &first, looks)?;
    if 0 < second.len() {
        text.push('\n')?;
        let more = joined(alloc, &second, looks)?;
        text.push_str(more.as_str())?;
    }
    Ok(text)
}
