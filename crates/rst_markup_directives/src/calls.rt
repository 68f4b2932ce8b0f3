//! Directives as they are called.
ghost use Rattle.std.specs.Prelude.{◌≡◌, true, ◌+◌, ◌-◌, ◌≤◌, ◌&&◌, length, IfOk};
ghost use Rattle.rst_markup_blocks.specs.Prelude.{cut, first_parts, Looked, capped, block_of};
ghost use Rattle.rst_markup_blocks.specs.Parts.{IsBlock, IsCall};
ghost use Rattle.rst_markup_directives.specs.Call as spec;
ghost use Rattle.rst_markup_directives.specs.Directive as directives;
ghost use Rattle.rst_markup_directives.specs.Layout as layouts;
ghost use Rattle.rst_markup_directives.specs.Lines.{texts_of};
ghost use Rattle.rst_markup_directives.specs.Wrong.{and_then};

use super::argument::{Argument, argument_of};
use super::fault::{Detail, DirectiveFault};
use super::found::{Content, Directive, Place};
use super::judgement::{content_fault, option_fault, permitted};
use super::kind::{ContentKind, Kind};
use super::layout::layout_of;
use super::lines::run_of;
use super::options::{Setting, excerpt, fields_of, settings_of};
use rst_markup_blocks::{Invocation, LineTest, Part, lines_end};
use rst_settings::Parts;
use rst_text::{Looks, View};
use std::alloc::{AllocError, Global};

/// The kind of the directive that is called at line `at` of a view, if there is one of that name.
///
/// The only refusal is [`AllocError`].
pub fn called(
    alloc: Global,
    view: &View<'_>,
    at: usize,
    invocation: &Invocation,
    looks: &mut Looks,
) -> Result<Option<Kind>, AllocError>
    requires call { IsCall (block_of view.now) at invocation.now }
    ensures kind { IfOk result (λ kind. kind ≡ spec.called_at true (block_of view.now) at invocation.now) }
    ensures looks { looks.new ≡ capped (looks.old + 1) }
{
    let name = excerpt(alloc, view.line(at, looks), invocation.name)?;
    Ok(Kind::of(view.parts(at), &name))
}

/// What the directive of a kind is that is called at line `at` of a view with this block, or what is wrong with it. `paragraph`
/// is true if the block is a single paragraph, which counts for `replace` alone. It makes at most one look more than the
/// block has lines.
///
/// The only refusal is [`AllocError`].
#[tactic(auto, unfolding(crate::specs::Directive::directive_of))]
pub fn directive(
    alloc: Global,
    kind: Option<Kind>,
    view: &View<'_>,
    at: usize,
    block: Part,
    place: Place,
    paragraph: bool,
    looks: &mut Looks,
) -> Result<Directive, AllocError>
    requires block { IsBlock (block_of view.now) block }
    ensures outcome { IfOk result (λ found. directives.directive_outcome found ≡ directives.directive_of kind (block_of view.now) at block place paragraph) }
    ensures parts { IfOk result (λ found. spec.IsDirectiveIn (block_of view.now) found) }
    ensures looked { Looked 0 (1 + (block.to - block.from)) looks.old looks.new }
{
    let source = Part {
        from: at,
        to: block.to,
        first_cut: 0,
        rest_cut: 0,
    };
    match permitted(kind, place) {
        Ok(kind) => {
            // The block begins after the line after the directive's.
            let late = 1 < block.from.saturating_sub(at);
            let reading = read(alloc, kind, late, view, block, looks)?;
            Ok(judged_directive(reading, place, paragraph, source))
        }
        Err(fault) => Ok(Directive::Wrong { fault, source }),
    }
}

/// A directive whose options and argument are right.
#[derive(Drop)]
struct Reading {
    kind: Kind,
    argument: Argument,
    options: Vec<Setting>,
    content: Content,
}

/// Reads the block of a directive, up to the faults of its content. Where it begins late, not in the line after
/// the directive's, a text has no lines for an argument and options, nor has any content under the part `unmarked`.
#[tactic(auto, using(crate::proofs::Parts::length_cut))]
fn read(
    alloc: Global,
    kind: Kind,
    late: bool,
    view: &View<'_>,
    block: Part,
    looks: &mut Looks,
) -> Result<Result<Reading, Detail>, AllocError>
    requires block { IsBlock (block_of view.now) block }
    ensures reading { IfOk result (λ reading. directives.reading_in reading ≡ directives.read_block kind late block (cut (block_of view.now) block.from block.to block.first_cut block.rest_cut)) }
    ensures looked { Looked 0 (1 + (block.to - block.from)) looks.old looks.new }
{
    let lines = view.part(block.from, block.to, block.first_cut, block.rest_cut);
    let parts = lines.parts(0);
    let text = kind.content.is_text();
    let none = late && (text || parts.unmarked);
    let run = run_of(alloc, none, &lines, looks)?;
    let rest = lines_end(&lines, run.len(), LineTest::Blank, looks);
    read_run(alloc, parts, kind, block, &run, rest)
}

/// Reads a block by its first run of lines; `rest` is the place of the first line after it that isn't blank.
#[tactic(auto, using(crate::proofs::FieldLemmas::texts_take, crate::proofs::FieldLemmas::texts_after), unfolding(crate::specs::Directive::directive_by_layout))]
fn read_run(
    alloc: Global,
    parts: &Parts,
    kind: Kind,
    block: Part,
    run: &[&str],
    rest: usize,
) -> Result<Result<Reading, Detail>, AllocError>
    requires ordered { block.from ≤ block.to }
    requires run { length run.now ≤ block.to - block.from }
    requires rest { rest ≤ block.to - block.from }
    ensures { IfOk result (λ reading. directives.reading_in reading ≡ directives.directive_by_layout parts.now kind block (block.to - block.from) (texts_of run.now) (layouts.layout_at parts.now kind (texts_of run.now) (block.to - block.from) rest)) }
{
    let all = block.to - block.from;
    let layout = layout_of(parts, kind, run, all, rest);
    let inside = content_block(kind.content, block);
    let content = Content {
        first: part_of(inside, 0, layout.first),
        second: part_of(inside, layout.second, all),
    };
    let part = part_of(block, 0, layout.argument);
    let Some(fields) = fields_of(alloc, parts, &run[layout.options..])? else {
        return Ok(Err(Detail::InvalidOptionBlock));
    };
    let options = match settings_of(alloc, kind.options, &fields)? {
        Ok(options) => options,
        Err(detail) => return Ok(Err(detail)),
    };
    match argument_of(alloc, kind.argument, &run[..layout.argument], part)? {
        Ok(argument) => Ok(Ok(Reading {
            kind,
            argument,
            options,
            content,
        })),
        Err(detail) => Ok(Err(detail)),
    }
}

/// The block of a directive as its content has it, which may keep some columns of the indentation.
fn content_block(content: ContentKind, block: Part) -> Part
    ensures { result ≡ spec.content_block content block }
{
    let kept = content.kept_columns();
    Part {
        first_cut: block.first_cut.saturating_sub(kept),
        rest_cut: block.rest_cut.saturating_sub(kept),
        ..block
    }
}

/// The lines at places `from` to `to - 1` of a block, as a part of the view that the block is a part of.
fn part_of(block: Part, from: usize, to: usize) -> Part
    requires ordered { from ≤ to }
    requires within { block.from + to ≤ block.to }
    ensures { result ≡ spec.part_of block from to }
{
    Part {
        from: block.from + from,
        to: block.from + to,
        first_cut: if from == 0 {
            block.first_cut
        } else {
            block.rest_cut
        },
        rest_cut: block.rest_cut,
    }
}

/// What was read of a directive, judged by its options and its content.
fn judged_directive(
    reading: Result<Reading, Detail>,
    place: Place,
    paragraph: bool,
    source: Part,
) -> Directive
    ensures { directives.directive_outcome result ≡ directives.directive_outcome_at source (and_then (directives.judged_directive place paragraph) (directives.of_block (directives.reading_in reading))) }
{
    let Reading {
        kind,
        argument,
        options,
        content,
    } = match reading {
        Ok(reading) => reading,
        Err(detail) => {
            let fault = DirectiveFault::Inside(detail);
            return Directive::Wrong { fault, source };
        }
    };
    let fault = match option_fault(&argument, options.as_slice()) {
        None => content_fault(kind, content.is_empty(), place, paragraph),
        fault => fault,
    };
    match (fault, argument) {
        (Some(fault), _) => Directive::Wrong { fault, source },
        (None, Argument::Classes { text, ids: None }) => {
            let fault = DirectiveFault::InvalidClasses(text);
            Directive::Wrong { fault, source }
        }
        (None, argument) => Directive::Found {
            kind,
            argument,
            options,
            content,
        },
    }
}
