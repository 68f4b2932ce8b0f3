//! Tables (Markup Specification, 'Tables').
ghost use Rattle.std.specs.Prelude.{◌≡◌, ◌+◌, ◌-◌, ◌<◌, ◌≤◌, ◌==◌, codes, length, drop, IfOk, ℕ, ◌*◌};
ghost use Rattle.rst_text.specs.Looked.{Looked, capped};
ghost use Rattle.rst_text.specs.ViewBlock.{block_of};
ghost use Rattle.rst_tree.specs.declared.note.Level.TheVariants.{Error};
ghost use Rattle.rst_markup_tables.specs.Messages.{malformed_text};
ghost use Rattle.rst_block_nodes.specs.Elements.{entry_node};
ghost use Rattle.rst_block_nodes.specs.Sections.{filled};
ghost use Rattle.rst_block_state.specs.machine.Steps as spec;
ghost use Rattle.rst_block_state.specs.Tables.{table_node};
ghost use Rattle.rst_block_state.specs.Texts.{warned};
ghost use Rattle.rst_block_state.specs.machine.Meanings.{Keeps, comes, reads};
ghost use Rattle.rst_block_state.specs.machine.NextLine.{IsTableAt};
ghost use Rattle.rst_block_state.specs.machine.OpenBlocks as blocks;
ghost use Rattle.rst_block_state.specs.looks.Ledger.{IsPaid};
ghost use Rattle.rst_block_state.specs.looks.Reaches.{reach_at};
ghost use Rattle.rst_markup_blocks.specs.Partition.{construct_size};

use rst_block_nodes::{completed, entry, message, tgroup};
use rst_block_state::{OpenBlock, Pass, Result, Step, number_at, source, split_nodes};
use rst_markup_tables::{TableResult, malformed_text};
use rst_text::View;
use rst_tree::{Attrs, Level, Tag};
use rst_tree_index::{Marked, MarkedNodes};
use std::alloc::{AllocError, Global};

/// A table, or the message on one that is malformed.
pub fn table(
    view: &View<'_>,
    level: &mut OpenBlock,
    found: TableResult,
    pass: &mut Pass,
) -> Result<Step>
    requires inside { level.old.at < length (block_of view.now) }
    requires table { IsTableAt (block_of view.now) level.old.at found }
    ensures step { IfOk result (λ s. spec.IsStep (block_of view.now) level.old.at level.new.at s) }
    ensures kept { IfOk result (λ _. level.new.depth ≡ level.old.depth) }
    ensures read { Keeps result (λ s. comes level.new (block_of view.now) s pass.new.numbers)
        (reads level.old (block_of view.now) pass.old.numbers) }
    ensures paid { (before : ℕ) → let B = block_of view.now in
        let titles = level.old.depth == 0 in
        let X = drop level.old.at B in
        pass.old.looks ≤ before + 4 * reach_at titles X → capped (before + (construct_size titles X - 1)) ≤ pass.old.looks
        → IfOk result (λ s. IsPaid 29 level.old level.new B s before pass.new.looks) }
{
    let at = level.at;
    level.close(view, pass)?;
    match found {
        TableResult::Malformed { end, note } => {
            let text = malformed_text(pass.alloc, note.detail)?;
            let lines = source(pass.alloc, view, at, end, &mut pass.looks)?;
            let line = number_at(view, at);
            let literal_block = Some(lines.as_str());
            let error = message(pass.alloc, Level::Error, line, text.as_str(), literal_block)?;
            level.go_to(end);
            level.push(error)?;
            after_table(view, level, pass)?;
            Ok(Step::Next)
        }
        found => Ok(Step::Cells(found)),
    }
}

/// Puts, after a table, the message that no blank line follows it.
pub fn after_table(view: &View<'_>, level: &mut OpenBlock, pass: &mut Pass) -> Result<()>
    ensures at { level.new.at ≡ level.old.at }
    ensures more { let notes = warned (codes "Blank line required after table.") (drop level.old.at (block_of view.now)) in
        blocks.Gives (λ _. blocks.HasMore level.old level.new notes) result }
    ensures numbers { pass.new.numbers ≡ pass.old.numbers }
    ensures looked { Looked 0 1 pass.old.looks pass.new.looks }
{
    let end = level.at;
    level.warn(view, end, "Blank line required after table.", pass)
}

/// A table of its rows' entries, of which the first rows, as many as `head`, are its head.
pub fn table_of(
    alloc: Global,
    line: usize,
    widths: &[usize],
    head: usize,
    rows: MarkedNodes,
) -> Result<Marked, AllocError>
    ensures { IfOk result (λ node. node ≡ table_node widths.now head rows line) }
{
    let (heads, bodies) = split_nodes(alloc, rows.into_marked(), head as u64)?;
    let mut parts = MarkedNodes::none(alloc);
    if 0 < head {
        parts.push(heads.into_element(Tag::Thead, Attrs::new(alloc), 0)?)?;
    }
    parts.push(bodies.into_element(Tag::Tbody, Attrs::new(alloc), 0)?)?;
    let group = completed(alloc, tgroup(alloc, widths, line)?, parts)?;
    MarkedNodes::alone(alloc, group)?.into_element(Tag::Table, Attrs::new(alloc), line)
}

/// The entry of a cell with its nodes, which takes this many rows and columns beside its first.
pub fn entry_of(
    alloc: Global,
    morerows: usize,
    morecols: usize,
    nodes: MarkedNodes,
) -> Result<Marked, AllocError>
    ensures { IfOk result (λ node. node ≡ filled (entry_node morerows morecols 0) nodes) }
{
    completed(alloc, entry(alloc, morerows, morecols, 0)?, nodes)
}
