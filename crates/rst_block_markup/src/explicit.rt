//! Explicit markup blocks (Markup Specification, 'Explicit Markup Blocks').
ghost use Rattle.std.specs.Prelude.{◌≡◌, ◌+◌, ◌-◌, ◌*◌, ◌<◌, ◌≤◌, [], ◌∷◌, length, drop, string_bytes, option_map, IfOk, IsTrue};
ghost use Rattle.rst_text.specs.Block.{first_number, first_text, first_parts};
ghost use Rattle.rst_text.specs.Looked.{capped};
ghost use Rattle.rst_text.specs.ViewBlock.{block_of};
ghost use Rattle.rst_markup_blocks.specs.Parts.{IsBlock};
ghost use Rattle.rst_tree.specs.Faults as faults;
ghost use Rattle.rst_tree.specs.declared.note.Level.TheVariants.{Warning};
ghost use Rattle.rst_tree.specs.declared.tag.Tag.TheVariants.{Comment as CommentTag};
ghost use Rattle.rst_markup_blocks.specs.Explicit.{IsExplicitIn, explicit_end, explicit_of, is_explicit_kind};
ghost use Rattle.rst_markup_blocks.specs.Kinds.{kind_of};
ghost use Rattle.rst_block_nodes.specs.Elements.{preserved_node};
ghost use Rattle.rst_block_nodes.specs.Targets.{target_node};
ghost use Rattle.rst_block_state.specs.Markup as markup;
ghost use Rattle.rst_block_markup.specs.MarkupSteps.{IsPartRead, markup_reads, reads_with};
ghost use Rattle.rst_block_state.specs.machine.Meanings.{Keeps, comes, reads, within_at};
ghost use Rattle.rst_block_state.specs.Numbered.{just};
ghost use Rattle.rst_block_state.specs.machine.OpenBlocks as blocks;
ghost use Rattle.rst_block_state.specs.declared.step.Step.TheVariants.{Next};
ghost use Rattle.rst_block_state.specs.machine.Steps as spec;
ghost use Rattle.rst_block_state.specs.Texts.{excerpt, lines_in, spelled};
ghost use Rattle.rst_block_state.specs.looks.Ledger.{IsPaid, run_looks, unread_at};
ghost use Rattle.rst_block_state.specs.Inside.{markup_blocks};

use super::directive::directive_block;
use super::substitution::substitution_definition;
use rst_block_nodes::{citation, footnote, message, preserved, target};
use rst_block_state::{
    OpenBlock, Pass, Result, Run, Step, Waits, excerpt, inside, joined, number_at,
};
use rst_markup_blocks::{CommentCause, Explicit, Part, explicit};
use rst_markup_lines::{Characters, LabelKind};
use rst_text::View;
use rst_tree::{Level, Node, Tag};
use std::alloc::Global;

/// Explicit markup, which joins other explicit markup before it.
#[tactic(auto, using(rst_block_state::proofs::Views::few_lines))]
pub fn explicit_markup(view: &View<'_>, level: &mut OpenBlock, pass: &mut Pass) -> Result<Step>
    requires inside { level.old.at < length (block_of view.now) }
    requires kind { IsTrue (is_explicit_kind (kind_of (block_of view.now) level.old.at)) }
    ensures step { IfOk result (λ s. spec.IsStep (block_of view.now) level.old.at level.new.at s) }
    ensures read { Keeps result (λ s. comes level.new (block_of view.now) s pass.new.numbers)
        (reads level.old (block_of view.now) pass.old.numbers) }
    ensures paid { IfOk result (λ s. IsPaid 29 level.old level.new (block_of view.now) s pass.old.looks pass.new.looks) }
{
    let at = level.at;
    let found = explicit(view, at, &mut pass.looks);
    let end = found.end(at);
    begin_markup(view, level, end, pass)?;
    explicit_markup_of(view, level, found, end, pass)
}

/// Opens explicit markup up to `end`, before which any other open run ends.
fn begin_markup(view: &View<'_>, level: &mut OpenBlock, end: usize, pass: &mut Pass) -> Result<()>
    ensures at { level.new.at ≡ level.old.at }
    ensures kept { IfOk result (λ _. level.new.depth ≡ level.old.depth) }
    ensures read { let B = block_of view.now in
        let nodes = markup.markup_nodes (within_at level.new.depth) B (record { start = level.old.at; stop = end }) in
        Keeps result (λ _. reads_with level.new B nodes end pass.new.numbers) (markup_reads level.old B end pass.old.numbers) }
    ensures run { IfOk result (λ _. pass.new.looks + run_looks level.new.run ≤ pass.old.looks + run_looks level.old.run + 1) }
    ensures low { capped pass.old.looks ≤ pass.new.looks }
{
    if matches!(level.run, Run::Explicit { .. }) {
        level.run = Run::Explicit { end };
        return Ok(());
    }
    level.close(view, pass)?;
    level.run = Run::Explicit { end };
    Ok(())
}

/// What explicit markup that ends at `end` is.
fn explicit_markup_of(
    view: &View<'_>,
    level: &mut OpenBlock,
    found: Explicit,
    end: usize,
    pass: &mut Pass,
) -> Result<Step>
    requires markup { IsExplicitIn (block_of view.now) level.old.at found }
    requires end { end ≡ explicit_end level.old.at found }
    requires inside { level.old.at < length (block_of view.now) }
    requires later { level.old.at < end }
    requires explicit { found ≡ explicit_of level.old.at (drop level.old.at (block_of view.now)) }
    ensures { let B = block_of view.now in
        let nodes = markup.markup_by found (within_at level.old.depth) B (record { start = level.old.at; stop = end }) (drop level.old.at B) in
        let inner = markup_blocks found (unread_at level.old.depth) B level.old.at in
        IsPartRead (20 * (end - level.old.at)) B level.old pass.old nodes inner end level.new pass.new result }
{
    match found {
        Explicit::Footnote { label, body } => {
            let kind = LabelKind::Footnote;
            labelled_block(view, level, kind, label, body, pass)
        }
        Explicit::Citation { label, body } => {
            let kind = LabelKind::Citation;
            labelled_block(view, level, kind, label, body, pass)
        }
        Explicit::Target { name, text } => target_block(view, level, Some(name), text, pass),
        Explicit::Anonymous { text } => target_block(view, level, None, text, pass),
        Explicit::Comment { text, cause } => comment(view, level, text, cause, pass),
        Explicit::EmptyComment => {
            let node = preserved(pass.alloc, Tag::Comment, number_at(view, level.at), "")?;
            put(level, node, end)
        }
        Explicit::Directive(invocation) => directive_block(view, level, &invocation, pass),
        Explicit::Substitution { name, embedded, .. } => {
            let name = excerpt(pass.alloc, view.line(level.at, &mut pass.looks), name)?;
            substitution_definition(view, level, name.as_str(), embedded, end, pass)
        }
    }
}

/// A footnote or a citation, whose block is opened.
fn labelled_block(
    view: &View<'_>,
    level: &mut OpenBlock,
    kind: LabelKind,
    label: Characters,
    body: Part,
    pass: &mut Pass,
) -> Result<Step>
    requires body { IsBlock (block_of view.now) body }
    requires later { level.old.at < body.to }
    ensures { let B = block_of view.now in
        let X = drop level.old.at B in
        let element = markup.node_by_label_kind kind (excerpt (first_text X) label) (first_number X) in
        let nodes = markup.noted (within_at level.old.depth) B element body in
        IsPartRead 1 B level.old pass.old nodes (lines_in B body ∷ []) body.to level.new pass.new result }
{
    let line = number_at(view, level.at);
    let label = excerpt(pass.alloc, view.line(level.at, &mut pass.looks), label)?;
    let element = match kind {
        LabelKind::Footnote => footnote(pass.alloc, label.as_str(), line)?,
        LabelKind::Citation => citation(pass.alloc, label.as_str(), line)?,
    };
    level.go_to(body.to);
    Ok(Step::Open {
        waits: Waits::Element(element),
        first: body,
        second: None,
    })
}

/// A target, with a name or anonymous.
fn target_block(
    view: &View<'_>,
    level: &mut OpenBlock,
    name: Option<Characters>,
    text: Part,
    pass: &mut Pass,
) -> Result<Step>
    requires text { IsBlock (block_of view.now) text }
    requires later { level.old.at < text.to }
    ensures { let B = block_of view.now in
        let X = drop level.old.at B in
        let node = target_node (first_parts X).mail (option_map (excerpt (first_text X)) name) (spelled (lines_in B text)) (first_number X) in
        IsPartRead (1 + (text.to - text.from)) B level.old pass.old (just (node ∷ [])) [] text.to level.new pass.new result }
{
    let alloc = pass.alloc;
    let lines = joined(alloc, &inside(view, text), &mut pass.looks)?;
    let line = number_at(view, level.at);
    let mail = view.parts(level.at).mail;
    let element = match name {
        Some(name) => {
            let name = excerpt(alloc, view.line(level.at, &mut pass.looks), name)?;
            target(alloc, mail, Some(name.as_str()), lines.as_str(), line)?
        }
        None => target(alloc, mail, None, lines.as_str(), line)?,
    };
    put(level, element, text.to)
}

/// A comment, with the message on one that isn't meant as such.
fn comment(
    view: &View<'_>,
    level: &mut OpenBlock,
    text: Part,
    cause: CommentCause,
    pass: &mut Pass,
) -> Result<Step>
    requires text { IsBlock (block_of view.now) text }
    requires later { level.old.at < text.to }
    ensures { let B = block_of view.now in
        let line = first_number (drop level.old.at B) in
        let nodes = preserved_node CommentTag line (spelled (lines_in B text)) ∷ markup.cause_notes cause line in
        IsPartRead (text.to - text.from) B level.old pass.old (just nodes) [] text.to level.new pass.new result }
{
    let line = number_at(view, level.at);
    let lines = joined(pass.alloc, &inside(view, text), &mut pass.looks)?;
    let node = preserved(pass.alloc, Tag::Comment, line, lines.as_str())?;
    level.go_to(text.to);
    level.push(node)?;
    put_cause(pass.alloc, level, cause, line)?;
    Ok(Step::Next)
}

/// Puts a node after the last, in a block that goes on at place `end`.
pub(crate) fn put(level: &mut OpenBlock, node: Node, end: usize) -> Result<Step>
    requires later { level.old.at < end }
    ensures { blocks.Gives (λ s. (s ≡ Next) × blocks.HasMoreAt level.old level.new (node ∷ []) end) result }
{
    level.go_to(end);
    level.push(node)?;
    Ok(Step::Next)
}

/// Puts, after the last node, the message on a comment that isn't meant as one.
fn put_cause(alloc: Global, level: &mut OpenBlock, cause: CommentCause, line: usize) -> Result<()>
    ensures more { blocks.Gives (λ _. blocks.HasMore level.old level.new (markup.cause_notes cause line)) result }
{
    let text = match cause {
        CommentCause::Plain => return Ok(()),
        CommentCause::MalformedTarget => "malformed hyperlink target.",
        CommentCause::MalformedSubstitution => "malformed substitution definition.",
    };
    level.push(message(alloc, Level::Warning, line, text, None)?)
}
