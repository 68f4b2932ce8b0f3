//! Substitution definitions (Markup Specification, 'Substitution Definitions').
ghost use Rattle.std.specs.Prelude.{◌≡◌, ◌-◌, ◌*◌, ◌<◌, ◌≤◌, ◌+◌, ◌∷◌, [], length, drop, string_bytes, IfOk, IfSome};
ghost use Rattle.rst_text.specs.Block.{first_number, first_text};
ghost use Rattle.rst_text.specs.ViewBlock.{block_of};
ghost use Rattle.rst_tree.specs.Nodes.{nodes_of};
ghost use Rattle.rst_tree.specs.declared.note.Level.TheVariants.{Error};
ghost use Rattle.rst_markup_directives.specs.declared.found.Place.TheVariants.{Substitution};
ghost use Rattle.rst_markup_directives.specs.Call.{IsArgumentIn, IsContentIn};
ghost use Rattle.rst_markup_blocks.specs.Parts.{IsCall};
ghost use Rattle.rst_block_state.specs.Directives as directives;
ghost use Rattle.rst_block_markup.specs.MarkupSteps.{IsPartRead, IsRight, made_of_content, read_of_directive, text_lines};
ghost use Rattle.rst_block_state.specs.machine.Meanings.{within_at};
ghost use Rattle.rst_block_state.specs.machine.OpenBlocks as blocks;
ghost use Rattle.rst_block_state.specs.Texts as texts;
ghost use Rattle.rst_block_state.specs.looks.Ledger.{unread_at};
ghost use Rattle.rst_block_state.specs.Inside.{content_blocks, directive_blocks, directive_content, substitution_blocks};

use super::closed::closed_element;
use super::directive::{Found, directive_at, handed_at, wrong_directive};
use super::explicit::put;
use rst_block_nodes::{
    filled, may_replace, message, substitution_definition as definition, substitution_name,
};
use rst_block_state::{
    OpenBlock, OpenReplacement, Pass, Result, Step, Waits, alone, excerpt, number_at, source,
};
use rst_markup_blocks::Invocation;
use rst_markup_directives::{Content, Directive, DirectiveFault, Place};
use rst_text::View;
use rst_tree::{Children, Level, Node, Tag};
use rst_tree_index::MarkedNodes;
use std::alloc::{AllocError, Global};

/// A substitution definition that ends at `end`. `written` is its name as written between the bars, `embedded` the directive
/// that it holds.
pub(crate) fn substitution_definition(
    view: &View<'_>,
    level: &mut OpenBlock,
    written: &str,
    embedded: Option<Invocation>,
    end: usize,
    pass: &mut Pass,
) -> Result<Step>
    requires call { IfSome embedded (IsCall (block_of view.now) level.old.at) }
    requires inside { level.old.at < length (block_of view.now) }
    requires later { level.old.at < end }
    requires begins { IfSome embedded (λ call. (level.old.at ≤ call.block.from) × (call.block.to ≤ end)) }
    ensures { let B = block_of view.now in
        let nodes = directives.substitution_nodes (within_at level.old.depth) B (record { start = level.old.at; stop = end }) written.now embedded in
        let inner = substitution_blocks embedded (unread_at level.old.depth) B level.old.at in
        IsPartRead (18 * (end - level.old.at)) B level.old pass.old nodes inner end level.new pass.new result }
{
    let name = substitution_name(pass.alloc, written)?;
    let Some(invocation) = embedded else {
        let text = about(pass.alloc, name.as_str(), " empty or invalid.")?;
        let lines = source(pass.alloc, view, level.at, end, &mut pass.looks)?;
        let line = number_at(view, level.at);
        let warning = message(
            pass.alloc,
            Level::Warning,
            line,
            text.as_str(),
            Some(lines.as_str()),
        )?;
        return put(level, warning, end);
    };
    definition_or_error(view, level, name, &invocation, end, pass)
}

/// A text on a substitution definition.
fn about(alloc: Global, name: &str, what: &str) -> Result<String, AllocError>
    ensures { IfOk result (λ text. string_bytes text ≡ directives.about name.now what.now) }
{
    let mut text = String::from_str(alloc, "Substitution definition \"")?;
    text.push_str(name)?;
    text.push_str("\"")?;
    text.push_str(what)?;
    Ok(text)
}

/// A substitution definition that holds a directive.
fn definition_or_error(
    view: &View<'_>,
    level: &mut OpenBlock,
    name: String,
    invocation: &Invocation,
    end: usize,
    pass: &mut Pass,
) -> Result<Step>
    requires call { IsCall (block_of view.now) level.old.at invocation.now }
    requires later { level.old.at < end }
    requires begins { (level.old.at ≤ invocation.now.block.from) × (invocation.now.block.to ≤ end) }
    ensures { let B = block_of view.now in
        let within = within_at level.old.depth in
        let outcome = directives.called within B level.old.at invocation.now Substitution in
        let written = texts.excerpt (first_text (drop level.old.at B)) invocation.now.name in
        let nodes = directives.definition_or_error outcome within B (record { start = level.old.at; stop = end }) (string_bytes name) written in
        let few = 18 * (end - level.old.at) in
        IsPartRead few B level.old pass.old nodes (directive_blocks outcome B) end level.new pass.new result }
{
    let at = level.at;
    let line = number_at(view, at);
    match directive_at(view, at, invocation, Place::Substitution, pass)? {
        Directive::Handed => {
            let node = handed_at(view, at, end, invocation, pass)?;
            let definition = definition(pass.alloc, name.as_str(), line)?;
            put(level, filled(definition, alone(pass.alloc, node)?)?, end)
        }
        Directive::Wrong { fault, .. } => {
            let written = excerpt(pass.alloc, view.line(at, &mut pass.looks), invocation.name)?;
            // Where the definition may not contain the directive, the message has the definition's name.
            let reported_name = match fault {
                DirectiveFault::NotInSubstitution => name.as_str(),
                _ => written.as_str(),
            };
            let error = wrong_directive(
                pass.alloc,
                view,
                at,
                end,
                &fault,
                reported_name,
                &mut pass.looks,
            )?;
            put(level, error, end)
        }
        Directive::Found {
            kind,
            argument,
            options,
            content,
        } => {
            let found = Found {
                kind,
                argument,
                options,
                content,
                end,
            };
            definition_of(view, level, name, &found, pass)
        }
    }
}

/// A substitution definition that holds a right directive.
fn definition_of(
    view: &View<'_>,
    level: &mut OpenBlock,
    name: String,
    found: &Found,
    pass: &mut Pass,
) -> Result<Step>
    requires right { IsRight (block_of view.now) level.old.at found.now }
    requires argument { IsArgumentIn (block_of view.now) found.now.argument }
    ensures { let B = block_of view.now in
        let line = first_number (drop level.old.at B) in
        let source = texts.span_source B (record { start = level.old.at; stop = found.now.end }) in
        let nodes = directives.definition_nodes (within_at level.old.depth) B line (string_bytes name) (read_of_directive found.now) source in
        let few = text_lines found.now + (found.now.end - level.old.at) in
        IsPartRead few B level.old pass.old nodes (directive_content found.now.kind.content B found.now.content) found.now.end level.new pass.new result }
{
    if found.kind.content.has_blocks() {
        return replacement(view, level, name, found.content, found.end, pass);
    }
    let line = number_at(view, level.at);
    let name = name.as_str();
    let alloc = pass.alloc;
    let element = closed_element(alloc, view, line, found, Some(name), &mut pass.looks)?;
    let definition = definition(alloc, name, line)?;
    put(
        level,
        filled(definition, alone(alloc, element)?)?,
        found.end,
    )
}

/// Opens a replacement text.
fn replacement(
    view: &View<'_>,
    level: &mut OpenBlock,
    name: String,
    content: Content,
    end: usize,
    pass: &mut Pass,
) -> Result<Step>
    requires content { IsContentIn (block_of view.now) content }
    requires inside { level.old.at < length (block_of view.now) }
    requires later { level.old.at < end }
    ensures { let B = block_of view.now in
        let line = first_number (drop level.old.at B) in
        let source = texts.span_source B (record { start = level.old.at; stop = end }) in
        let nodes = made_of_content (within_at level.old.depth) B content
        (λ nodes. directives.replacement (string_bytes name) line source (directives.first_paragraph nodes) ∷ []) in
        let few = end - level.old.at in
        IsPartRead few B level.old pass.old nodes (content_blocks B content) end level.new pass.new result }
{
    let at = level.at;
    let replacement = OpenReplacement {
        name,
        line: number_at(view, at),
        source: source(pass.alloc, view, at, end, &mut pass.looks)?,
    };
    let waits = Waits::Replacement(Box::new(pass.alloc, replacement)?);
    level.go_to(end);
    Ok(Step::Open {
        waits,
        first: content.first,
        second: Some(content.second),
    })
}

/// A substitution definition with its replacement text, or the message on one that isn't allowed there. The definition is marked
/// as a new node. Its text was marked in its paragraph, but no replacement text is in another: so nothing is marked more than
/// twice.
pub fn finished_replacement(
    alloc: Global,
    open: OpenReplacement,
    nodes: MarkedNodes,
) -> Result<Node, AllocError>
    ensures { IfOk result (λ node. node
        ≡ directives.replacement (string_bytes open.name) open.line (string_bytes open.source)
        (directives.first_paragraph nodes)) }
{
    let OpenReplacement { name, line, source } = open;
    let children = first_paragraph(alloc, nodes);
    if may_replace(children.as_slice()) {
        let definition = definition(alloc, name.as_str(), line)?;
        let node = filled(definition, children.into_list())?;
        return Ok(node);
    }
    let text = about(alloc, name.as_str(), " contains an illegal element.")?;
    let error = message(
        alloc,
        Level::Error,
        line,
        text.as_str(),
        Some(source.as_str()),
    )?;
    Ok(error)
}

/// The nodes of the first paragraph.
fn first_paragraph(alloc: Global, nodes: MarkedNodes) -> Children
    ensures { nodes_of result ≡ directives.first_paragraph nodes }
{
    let mut rest = nodes.into_marked();
    while let Some(node) = rest.next(alloc) {
        if let Node::Element {
            tag: Tag::Paragraph,
            children,
            ..
        } = node.into_root()
        {
            return children;
        }
    }
    Children::new(alloc)
}
