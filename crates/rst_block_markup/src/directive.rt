//! Directives as blocks (Markup Specification, 'Directives').
ghost use Rattle.std.specs.Prelude.{◌≡◌, ℕ, ◌+◌, ◌-◌, ◌*◌, ◌<◌, ◌≤◌, ◌==◌, drop, length, slice_range, Some, Ok, IfOk};
ghost use Rattle.std.specs.Str.{chars};
ghost use Rattle.rst_text.specs.Block.{Block, first_text};
ghost use Rattle.rst_text.specs.Looked.{Looked, capped};
ghost use Rattle.rst_text.specs.ViewBlock.{block_of};
ghost use Rattle.rst_markup_directives.specs.Argument as given;
ghost use Rattle.rst_markup_directives.specs.Directive as directives;
ghost use Rattle.rst_markup_directives.specs.Wrong.{fault_in};
ghost use Rattle.rst_block_state.specs.Directives as meaning;
ghost use Rattle.rst_block_markup.specs.MarkupSteps.{IsDirectiveRead, IsForContent, IsOpenedRead, IsPartRead, IsRight, place_in, text_lines, read_of_directive};
ghost use Rattle.rst_block_state.specs.machine.Meanings.{within_at};
ghost use Rattle.rst_markup_directives.specs.Call.{IsArgumentIn, IsDirectiveIn};
ghost use Rattle.rst_markup_directives.specs.declared.found.Place.{Place};
ghost use Rattle.rst_markup_blocks.specs.Parts.{IsBlock, IsCall};
ghost use Rattle.rst_block_state.specs.machine.OpenBlocks.{Gives, IsMoved};
ghost use Rattle.rst_block_state.specs.Paragraphs.{is_single_paragraph};
ghost use Rattle.rst_block_state.specs.Texts.{excerpt, lines_in};
ghost use Rattle.rst_block_state.specs.declared.step.Step.TheVariants.{Open};
ghost use Rattle.rst_block_state.specs.declared.texts.Pass.{Pass};
ghost use Rattle.rst_block_state.specs.looks.Ledger.{unread_at};
ghost use Rattle.rst_block_state.specs.Inside.{directive_blocks};

use super::classes::class_block;
use super::closed::closed_nodes;
use super::explicit::put;
use super::single::is_single_paragraph;
use super::tables::table_directive;
use rst_block_nodes::{
    append, directive_element, figure, filled, handed_directive, image, message, subtitle,
    table_options, with_text, with_title_class,
};
use rst_block_state::{
    OpenBlock, OpenTable, Pass, Result, Step, Waits, alone, excerpt, first_line_or, inside, joined,
    number_at, source,
};
use rst_markup_blocks::{Invocation, Part};
use rst_markup_directives::{
    Argument, Content, ContentKind, Directive, DirectiveFault, Kind, Place, Setting, called,
    directive, level_of, message as fault_text,
};
use rst_text::{Looks, View};
use rst_tree::{Node, Tag};
use std::alloc::{AllocError, Global};

/// What a directive is, where `place` is its place.
pub(crate) fn directive_at(
    view: &View<'_>,
    at: usize,
    invocation: &Invocation,
    place: Place,
    pass: &mut Pass,
) -> Result<Directive>
    requires call { IsCall (block_of view.now) at invocation.now }
    ensures outcome { Gives (λ found. directives.directive_outcome found
        ≡ meaning.called (within_at 0) (block_of view.now) at invocation.now place) result }
    ensures parts { IfOk result (IsDirectiveIn (block_of view.now)) }
    ensures numbers { pass.new.numbers ≡ pass.old.numbers }
    ensures looked { let lines = invocation.now.block.to - invocation.now.block.from in
        IfOk result (λ _. Looked 1 (9 + 2 * lines) pass.old.looks pass.new.looks) }
{
    let kind = called(pass.alloc, view, at, invocation, &mut pass.looks)?;
    if is_handed(view, at, invocation, pass)? {
        return Ok(Directive::Handed);
    }
    let block = invocation.block;
    let paragraph = is_paragraph(kind, view, block, &mut pass.looks);
    Ok(directive(
        pass.alloc,
        kind,
        view,
        at,
        block,
        place,
        paragraph,
        &mut pass.looks,
    )?)
}

/// Whether a directive is handed back. Nothing is read where no name is.
fn is_handed(view: &View<'_>, at: usize, invocation: &Invocation, pass: &mut Pass) -> Result<bool>
    requires call { IsCall (block_of view.now) at invocation.now }
    ensures handed { Gives (λ handed. handed ≡ meaning.is_handed_at (block_of view.now) at invocation.now) result }
    ensures numbers { pass.new.numbers ≡ pass.old.numbers }
    ensures looked { IfOk result (λ _. Looked 0 1 pass.old.looks pass.new.looks) }
{
    let parts = view.parts(at);
    if parts.handed.is_none() {
        return Ok(false);
    }
    let name = excerpt(pass.alloc, view.line(at, &mut pass.looks), invocation.name)?;
    Ok(parts.hands_directive(name.as_str()))
}

/// Whether the block of a replacement text is a single paragraph, which counts for no other directive.
fn is_paragraph(kind: Option<Kind>, view: &View<'_>, block: Part, looks: &mut Looks) -> bool
    requires block { IsBlock (block_of view.now) block }
    ensures flag { (B : Block) (at : ℕ) (place : Place) → directives.directive_of kind B at block place result
        ≡ directives.directive_of kind B at block place (is_single_paragraph (lines_in (block_of view.now) block)) }
    ensures looked { Looked 0 (block.to - block.from + 6) looks.old looks.new }
{
    if kind.is_some_and(|kind| kind.content == ContentKind::Paragraph) {
        return is_single_paragraph(&inside(view, block), looks);
    }
    false
}

/// A directive.
pub(crate) fn directive_block(
    view: &View<'_>,
    level: &mut OpenBlock,
    invocation: &Invocation,
    pass: &mut Pass,
) -> Result<Step>
    requires call { IsCall (block_of view.now) level.old.at invocation.now }
    requires later { level.old.at < invocation.now.block.to }
    requires begins { level.old.at ≤ invocation.now.block.from }
    ensures { let B = block_of view.now in
        let end = invocation.now.block.to in
        let nodes = meaning.directive_nodes (within_at level.old.depth) B (record { start = level.old.at; stop = end }) invocation.now in
        let outcome = meaning.called (unread_at level.old.depth) B level.old.at invocation.now (place_in (level.old.depth == 0)) in
        let few = 18 * (end - level.old.at) in
        IsPartRead few B level.old pass.old nodes (directive_blocks outcome B) end level.new pass.new result }
{
    let at = level.at;
    let end = invocation.block.to;
    match directive_at(view, at, invocation, place_in(level.titles()), pass)? {
        Directive::Handed => {
            let node = handed_at(view, at, end, invocation, pass)?;
            put(level, node, end)
        }
        Directive::Wrong { fault, .. } => {
            let name = excerpt(pass.alloc, view.line(at, &mut pass.looks), invocation.name)?;
            let name = name.as_str();
            let error = wrong_directive(pass.alloc, view, at, end, &fault, name, &mut pass.looks)?;
            put(level, error, end)
        }
        Directive::Found {
            kind,
            argument,
            options,
            content,
        } => {
            let found = Found {
                kind,
                argument,
                options,
                content,
                end,
            };
            directive_nodes(view, level, &found, pass)
        }
    }
}

/// A directive that is handed back, with its lines.
pub(crate) fn handed_at(
    view: &View<'_>,
    at: usize,
    end: usize,
    invocation: &Invocation,
    pass: &mut Pass,
) -> Result<Node>
    requires call { IsCall (block_of view.now) at invocation.now }
    ensures node { let B = block_of view.now in
        let name = excerpt (first_text (drop at B)) invocation.now.name in
        Gives (λ node. node ≡ meaning.handed_directive B (record { start = at; stop = end }) name) result }
    ensures numbers { pass.new.numbers ≡ pass.old.numbers }
    ensures most { pass.new.looks ≤ pass.old.looks + 1 + (end - at) }
    ensures each { IfOk result (λ _. capped (pass.old.looks + length (slice_range (block_of view.now) at end)) ≤ pass.new.looks) }
{
    let alloc = pass.alloc;
    let name = excerpt(alloc, view.line(at, &mut pass.looks), invocation.name)?;
    let lines = source(alloc, view, at, end, &mut pass.looks)?;
    Ok(handed_directive(alloc, name.as_str(), lines.as_str(), number_at(view, at))?)
}

/// Where a directive of a block is, by whether titles are allowed there.
fn place_in(titles: bool) -> Place
    ensures { result ≡ place_in titles }
{
    if titles { Place::Top } else { Place::Body }
}

/// A right directive, which ends at `end`.
#[derive(Drop)]
pub(crate) struct Found {
    pub kind: Kind,
    pub argument: Argument,
    pub options: Vec<Setting>,
    pub content: Content,
    pub end: usize,
}

/// The message on a wrong directive, with its lines. `name` is the name in the message.
pub(crate) fn wrong_directive(
    alloc: Global,
    view: &View<'_>,
    at: usize,
    end: usize,
    fault: &DirectiveFault,
    name: &str,
    looks: &mut Looks,
) -> Result<Node>
    ensures error { let B = block_of view.now in
        Gives (λ node. node ≡ meaning.fault_node (fault_in fault.now) B (record { start = at; stop = end }) name.now) result }
    ensures most { looks.new ≤ looks.old + (end - at) }
    ensures each { IfOk result (λ _. capped (looks.old + length (slice_range (block_of view.now) at end)) ≤ looks.new) }
{
    let text = fault_text(alloc, fault, name)?;
    let lines = source(alloc, view, at, end, looks)?;
    Ok(message(
        alloc,
        level_of(fault),
        number_at(view, at),
        text.as_str(),
        Some(lines.as_str()),
    )?)
}

/// What a right directive leaves, or the block that is read for it.
fn directive_nodes(
    view: &View<'_>,
    level: &mut OpenBlock,
    found: &Found,
    pass: &mut Pass,
) -> Result<Step>
    requires right { IsRight (block_of view.now) level.old.at found.now }
    requires argument { IsArgumentIn (block_of view.now) found.now.argument }
    ensures { let few = text_lines found.now + (found.now.end - level.old.at) in
        IsDirectiveRead few (block_of view.now) level.old pass.old found.now level.new pass.new result }
{
    if !found.kind.content.has_blocks() {
        let nodes = closed_nodes(view, level.at, level.depth, found, pass)?;
        level.go_to(found.end);
        level.append(nodes)?;
        return Ok(Step::Next);
    }
    match &found.argument {
        Argument::Title(title) => titled_block(view, level, found, *title, pass),
        Argument::Uri(uri) => figure_block(pass.alloc, view, level, found, uri.as_str()),
        _ => plain_block(view, level, found, pass),
    }
}

/// An admonition, a topic, a sidebar or a table: its title, and then its content.
fn titled_block(
    view: &View<'_>,
    level: &mut OpenBlock,
    found: &Found,
    title: Part,
    pass: &mut Pass,
) -> Result<Step>
    requires right { IsRight (block_of view.now) level.old.at found.now }
    requires title { IsBlock (block_of view.now) title }
    ensures { let few = (title.to - title.from) + (found.now.end - level.old.at) in
        IsOpenedRead few (block_of view.now) level.old pass.old found.now (given.title title) level.new pass.new result }
{
    let line = number_at(view, level.at);
    let lines = inside(view, title);
    let node = titled_start(&lines, line, found, pass)?;
    let waits = content_waits(pass.alloc, level.at, node, found)?;
    Ok(opened(level, waits, found))
}

/// What a directive in a line begins with that has a title in these lines: the title, the subtitle that its options may give, and
/// the messages on the texts of both. The title of an admonition gives its class, unless the options do.
fn titled_start(lines: &View<'_>, line: usize, found: &Found, pass: &mut Pass) -> Result<Node>
    ensures read { let read = read_of_directive found.now in
        Gives (λ node. meaning.titled_start line read (block_of lines.now) pass.old.numbers ≡ Ok (node, pass.new.numbers)) result }
    ensures looked { IfOk result (λ _. Looked 0 (length (block_of lines.now)) pass.old.looks pass.new.looks) }
{
    let alloc = pass.alloc;
    let element = found.kind.element;
    let options = found.options.as_slice();
    let title_line = first_line_or(lines, line);
    let parts = lines.parts(0);
    let text = joined(alloc, lines, &mut pass.looks)?;
    let text = text.as_str();
    let numbers = &mut pass.numbers;
    let title = with_text(
        alloc,
        parts,
        Tag::Title,
        title_line,
        text,
        title_line,
        numbers,
    )?;
    let more = subtitle(alloc, parts, options, line, &mut pass.numbers)?;
    let own = directive_element(alloc, element, &found.argument, options, line)?;
    let node = match element {
        Tag::Admonition => with_title_class(alloc, own, &title.element)?,
        _ => own,
    };
    let mut nodes = alone(alloc, title.element)?;
    append(&mut nodes, more.heads)?;
    append(&mut nodes, title.notes)?;
    append(&mut nodes, more.notes)?;
    Ok(filled(node, nodes)?)
}

/// A directive without a title: its element, block quotes, or nodes that get classes.
fn plain_block(
    view: &View<'_>,
    level: &mut OpenBlock,
    found: &Found,
    pass: &mut Pass,
) -> Result<Step>
    requires { IsRight (block_of view.now) level.old.at found.now }
    ensures { let few = found.now.end - level.old.at in
        IsOpenedRead few (block_of view.now) level.old pass.old found.now given.nothing level.new pass.new result }
{
    match found.kind.content {
        ContentKind::Quotes(class) => return Ok(opened(level, Waits::Quotes(class), found)),
        ContentKind::Classed => return class_block(view, level, found, pass),
        _ => {}
    }
    let line = number_at(view, level.at);
    let element = found.kind.element;
    let options = found.options.as_slice();
    let node = directive_element(pass.alloc, element, &found.argument, options, line)?;
    let waits = content_waits(pass.alloc, level.at, node, found)?;
    Ok(opened(level, waits, found))
}

/// What a block waits for that has the element of a directive: the element's content, or what a table is made of.
fn content_waits(
    alloc: Global,
    start: usize,
    element: Node,
    found: &Found,
) -> Result<Waits, AllocError>
    ensures { IfOk result (IsForContent found.now start element) }
{
    match table_directive(found.kind.content) {
        Some(directive) => {
            let table = OpenTable {
                directive,
                table: element,
                asked: table_options(alloc, found.options.as_slice())?,
                start,
                end: found.end,
            };
            Ok(Waits::Table(Box::new(alloc, table)?))
        }
        None => Ok(Waits::Element(element)),
    }
}

/// A figure with its image.
fn figure_block(
    alloc: Global,
    view: &View<'_>,
    level: &mut OpenBlock,
    found: &Found,
    uri: &str,
) -> Result<Step>
    requires { IsRight (block_of view.now) level.old.at found.now }
    ensures { (pass : Pass) → let few = found.now.end - level.old.at in
        IsOpenedRead few (block_of view.now) level.old pass found.now (given.uri (chars uri.now)) level.new pass result }
{
    let start = level.at;
    let line = number_at(view, start);
    let options = found.options.as_slice();
    let image_node = image(alloc, uri, options, line, true, None)?;
    let figure = filled(figure(alloc, options, line)?, alone(alloc, image_node)?)?;
    let waits = Waits::Figure {
        figure,
        start,
        end: found.end,
    };
    Ok(opened(level, waits, found))
}

/// Opens the content of a directive, for whose nodes its block waits.
pub(crate) fn opened(level: &mut OpenBlock, waits: Waits, found: &Found) -> Step
    requires later { level.old.at < found.now.end }
    ensures opened { result ≡ Open waits found.now.content.first (Some found.now.content.second) }
    ensures at { level.new.at ≡ found.now.end }
    ensures moved { IsMoved level.old level.new }
{
    level.go_to(found.end);
    Step::Open {
        waits,
        first: found.content.first,
        second: Some(found.content.second),
    }
}
