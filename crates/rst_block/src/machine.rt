//! The machine: the constructs of a block one after the other, and the blocks inside them.
ghost use Rattle.std.specs.Prelude.{◌≡◌, Ok, suc, ◌+◌, ◌-◌, ◌<◌, ◌≤◌, ◌++◌, ◌∷◌, [], drop, length, take, IfNone, IfOk, IsTrue};
ghost use Rattle.rst_text.specs.Lines.{are_lines};
ghost use Rattle.rst_text.specs.MayCut.{are_texts};
ghost use Rattle.rst_text.specs.Looked.{Looked, capped};
ghost use Rattle.rst_text.specs.ViewBlock.{block_of, source_of};
ghost use Rattle.rst_tree.specs.declared.tag.Tag.TheVariants.{Row};
ghost use Rattle.rst_block_nodes.specs.Elements.{element_of, entry_node};
ghost use Rattle.rst_block_nodes.specs.Sections.{filled};
ghost use Rattle.rst_block_state.specs.machine.Frames.{IsNow};
ghost use Rattle.rst_block_state.specs.machine.Meanings.{IsNew, Keeps, TellsBlank, comes, done_of, plug, reads, text_items, within_at};
ghost use Rattle.rst_block_state.specs.machine.OpenBlocks.{Gives, HasMore};
ghost use Rattle.rst_block_state.specs.machine.Steps as spec;
ghost use Rattle.rst_block_state.specs.declared.step.Step.TheVariants.{Begin, Next, Cells};
ghost use Rattle.rst_block_state.specs.Numbered.{each, just};
ghost use Rattle.rst_block_state.specs.Tables as tables;
ghost use Rattle.rst_block_state.specs.looks.Ledger.{Takes, TakesFor, least_in, least_left, most_in, most_left, total_at, totals};
ghost use Rattle.rst_block_state.specs.Inside.{cell_blocks};
ghost use Rattle.rst_block.specs.Reading.{ContinuesFrom, IsReading, cost, first_step, found_step, text_left};
ghost use Rattle.rst_markup_tables.specs.declared.results.TableResult.TheVariants.{Table};

use super::ended::closed;
use super::frames::Frames;
use super::step::marked_step;
use rst_block_body::definition::definition;
use rst_block_body::table::{after_table, entry_of, table_of};
use rst_block_body::text::{text_form_at, title_or_paragraph};
use rst_block_state::{
    BlockFault, DEEPEST, Ended, OpenBlock, Pass, Result, Step, Waits, inside, opened,
};
use rst_markup_blocks::{Begun, LineTest, Part, TextForm, begun_at, lines_end};
use rst_markup_tables::{Cell, Rows, TableResult};
use rst_text::{Lines, View};
use rst_tree::{Attrs, Tag};
use rst_tree_index::MarkedNodes;
use std::alloc::Global;

/// Reads the lines of a text: of a document, or of a table's cell. The level, of which nothing was read, becomes what was read of
/// them. The blocks that wait are in `frames`: those around the text, then those of the text.
#[cycle(machine)]
pub(crate) fn read(
    lines: &Lines,
    level: &mut OpenBlock,
    frames: &mut Frames,
    pass: &mut Pass,
) -> Result<()>
    requires depth { level.old.depth ≤ 251 }
    requires new { IsNew level.old }
    requires room { length frames.old ≤ level.old.depth }
    ensures frames { IfOk result (λ _. frames.new ≡ frames.old) }
    ensures depth { IfOk result (λ _. level.new.depth ≡ level.old.depth) }
    ensures read { Keeps result (λ _. just (done_of level.new) pass.new.numbers) (text_items level.old.depth lines.now pass.old.numbers) }
    ensures paid { IfOk result (λ _. TakesFor (total_at level.old.depth lines.now) pass.old.looks pass.new.looks) }
    ensures lines { IsTrue (are_lines lines.now) }
    ensures texts { IsTrue (are_texts lines.now) }
{
    let whole = View::whole(lines);
    let depth = level.depth;
    let base = frames.len();
    let mut view = whole;
    loop {
        match read_on(&whole, &mut view, level, depth, base, frames, pass)? {
            None => return Ok(()),
            Some(table) => {
                let inner = level.depth + 1;
                cells(&view, level, table, inner, frames, pass)?;
            }
        }
    }
}

/// Reads on up to the cells of a table, or to the end of a text that is inside `depth` blocks. The first `base` blocks
/// that wait are around the text.
// What it keeps is off the stack while the cells of a table are read.
#[inline(never)]
fn read_on<'a>(
    whole: &View<'a>,
    view: &mut View<'a>,
    level: &mut OpenBlock,
    depth: usize,
    base: usize,
    frames: &mut Frames,
    pass: &mut Pass,
) -> Result<Option<TableResult>>
    requires reading { IsReading depth base (source_of whole.now) frames.old level.old view.old (first_step level.old.depth) }
    ensures reading { IfOk result (λ found. IsReading depth base (source_of whole.now) frames.new level.new view.new (found_step found)) }
    ensures outer { IfOk result (λ _. take base frames.new ≡ take base frames.old) }
    ensures last { IfOk result (λ found. IfNone found (length frames.new ≡ base)) }
    ensures less { let S = source_of whole.now in
        IfOk result (λ found. text_left depth base S frames.new level.new view.new (found_step found) ≤ text_left depth base S frames.old level.old view.old (first_step level.old.depth)) }
    ensures read { let S = source_of whole.now in
        Keeps result (λ found. plug S (drop base frames.new) (comes level.new (block_of view.new) (found_step found)) pass.new.numbers)
        (plug S (drop base frames.old) (comes level.old (block_of view.old) (first_step level.old.depth)) pass.old.numbers) }
    ensures paid { let S = source_of whole.now in
        let now = first_step level.old.depth in
        let most = most_in S (drop base frames.old) + most_left level.old (block_of view.old) now in
        let least = least_in S (drop base frames.old) + least_left level.old (block_of view.old) now in
        IfOk result (λ found. let B = block_of view.new in
        let s = found_step found in
        Takes most least pass.old.looks (most_in S (drop base frames.new) + most_left level.new B s) (least_in S (drop base frames.new) + least_left level.new B s) pass.new.looks) }
{
    let mut now = first_step(level);
    loop {
        let inner = depth + (frames.len() - base) + 1;
        now = match now {
            Step::Begin => begin(view, level, pass)?,
            Step::Next => next(view, level, pass)?,
            Step::Cells(table) => return Ok(Some(table)),
            Step::Open {
                waits,
                first,
                second,
            } => {
                let frame = opened(pass.alloc, view, level, waits, second, inner);
                frames.push(pass.alloc, frame)?;
                *view = inside(view, first);
                first_step(level)
            }
            Step::Done => match frames.pop(base) {
                None => return Ok(None),
                Some(frame) => match closed(whole, frame, level, inner - 1, pass)? {
                    Ended::Waiting(frame, part) => {
                        frames.push(pass.alloc, frame)?;
                        *view = part;
                        first_step(level)
                    }
                    Ended::GoesOn(outer, next) => {
                        *view = outer;
                        next
                    }
                },
            },
        };
    }
}

/// The first step in a block: its next line comes, unless the block is below the last level.
fn first_step(level: &OpenBlock) -> Step
    ensures { result ≡ first_step level.now.depth }
{
    if DEEPEST < level.depth {
        return Step::Begin;
    }
    Step::Next
}

/// What comes in a block below the last level, of which nothing was read: its end, if it is blank.
fn begin(view: &View<'_>, level: &OpenBlock, pass: &mut Pass) -> Result<Step>
    requires new { IsNew level.now }
    requires depth { level.now.depth ≡ 251 }
    ensures now { IfOk result (λ s. IsNow (block_of view.now) level.now s) }
    ensures less { let n = length (block_of view.now) in IfOk result (λ s. cost n level.now.at s < cost n level.now.at Begin) }
    ensures goes { ContinuesFrom (block_of view.now) level.now Begin pass.old level.now pass.new result }
{
    not_blank(view, pass)?;
    Ok(Step::Done)
}

/// What comes in a block after blank lines and texts that are read at once: what another construct leads to, or the block's end.
#[tactic(auto, using(rst_block_state::proofs::Views::few_lines, crate::proofs::Stack::next_of_step))]
fn next(view: &View<'_>, level: &mut OpenBlock, pass: &mut Pass) -> Result<Step>
    ensures next { IfOk result (λ s. spec.IsNext (block_of view.now) level.old.at level.new.at s) }
    ensures goes { ContinuesFrom (block_of view.now) level.old Next pass.old level.new pass.new result }
{
    while level.at < view.len() {
        let at = level.at;
        match begun_at(view, at, &mut pass.looks) {
            Begun::Blank => {
                level.go_to(lines_end(view, at + 1, LineTest::Blank, &mut pass.looks));
            }
            Begun::Text => match text_form_at(view, at, &mut pass.looks) {
                TextForm::Definition => {
                    return definition(view, level, Vec::new(pass.alloc), pass);
                }
                form => title_or_paragraph(view, level, Vec::new(pass.alloc), form, pass)?,
            },
            begun => return marked_step(view, level, begun, pass),
        }
    }
    level.close(view, pass)?;
    Ok(Step::Done)
}

/// Refuses lines that are nested too deeply, unless they are blank.
fn not_blank(view: &View<'_>, pass: &mut Pass) -> Result<()>
    ensures blank { TellsBlank (block_of view.now) result }
    ensures numbers { pass.new.numbers ≡ pass.old.numbers }
    ensures each { IfOk result (λ _. capped (pass.old.looks + length (block_of view.now)) ≤ pass.new.looks) }
    ensures looked { Looked 0 (length (block_of view.now)) pass.old.looks pass.new.looks }
{
    let first = lines_end(view, 0, LineTest::Blank, &mut pass.looks);
    if first < view.len() {
        return Err(BlockFault::TooDeep {
            line: view.number(first),
        });
    }
    Ok(())
}

/// Puts a table, whose cells are inside `depth` blocks, after the last node, and goes on.
#[cycle(machine)]
fn cells(
    view: &View<'_>,
    level: &mut OpenBlock,
    found: TableResult,
    depth: usize,
    frames: &mut Frames,
    pass: &mut Pass,
) -> Result<()>
    requires inside { level.old.at < length (block_of view.now) }
    requires depth { depth ≤ 251 }
    requires room { length frames.old ≤ depth }
    requires level { depth ≡ suc level.old.depth }
    requires table { spec.IsTable level.old.at found }
    ensures frames { IfOk result (λ _. frames.new ≡ frames.old) }
    ensures later { IfOk result (λ _. level.old.at < level.new.at) }
    ensures kept { IfOk result (λ _. level.new.depth ≡ level.old.depth) }
    ensures read { Keeps result (λ _. reads level.new (block_of view.now) pass.new.numbers)
        (comes level.old (block_of view.now) (Cells found) pass.old.numbers) }
    ensures paid { let B = block_of view.now in
        let most = most_left level.old B (Cells found) in
        let least = least_left level.old B (Cells found) in
        IfOk result (λ _. Takes most least pass.old.looks (most_left level.new B Next) (least_left level.new B Next) pass.new.looks) }
{
    let TableResult::Table {
        cols,
        head,
        rows,
        end,
    } = found
    else {
        unreachable!()
    };
    let line = view.number(level.at);
    let made = rows_of(rows, depth, frames, pass)?;
    level.go_to(end);
    put_table(pass.alloc, level, line, cols.as_slice(), head, made)?;
    after_table(view, level, pass)?;
    Ok(())
}

/// Puts a table of these rows after the last node.
// What it keeps is off the stack while cells are read, as with the next two.
#[inline(never)]
fn put_table(
    alloc: Global,
    level: &mut OpenBlock,
    line: usize,
    widths: &[usize],
    head: usize,
    rows: MarkedNodes,
) -> Result<()>
    ensures { Gives (λ _. HasMore level.old level.new (tables.table_node widths.now head rows line ∷ [])) result }
{
    level.push_marked(table_of(alloc, line, widths, head, rows)?)
}

/// The rows of a table, whose cells are inside `depth` blocks.
#[cycle(machine)]
fn rows_of(rows: Rows, depth: usize, frames: &mut Frames, pass: &mut Pass) -> Result<MarkedNodes>
    requires depth { depth ≤ 251 }
    requires room { length frames.old ≤ depth }
    requires inner { 1 ≤ depth }
    ensures frames { IfOk result (λ _. frames.new ≡ frames.old) }
    ensures rows { Keeps result (λ made. Ok (made, pass.new.numbers))
        (each (tables.row_of (within_at (depth - 1))) rows pass.old.numbers) }
    ensures paid { IfOk result (λ _. TakesFor (totals (depth - 1) (cell_blocks (Table [] 0 rows 0))) pass.old.looks pass.new.looks) }
{
    let mut made = MarkedNodes::none(pass.alloc);
    for cells in rows.into_rows() {
        let entries = entries_of(cells, depth, frames, pass)?;
        put_row(pass.alloc, &mut made, entries)?;
    }
    Ok(made)
}

/// Puts a row of these entries after the others.
#[inline(never)]
fn put_row(alloc: Global, rows: &mut MarkedNodes, entries: MarkedNodes) -> Result<()>
    ensures { Gives (λ _. rows.new ≡ rows.old ++ element_of Row [] entries 0 ∷ []) result }
{
    rows.push(entries.into_element(Tag::Row, Attrs::new(alloc), 0)?)?;
    Ok(())
}

/// The entries of a row, whose cells are inside `depth` blocks. The lines of a cell are kept once, and only until they
/// are read, so a line inside several tables is kept once for each of them.
#[cycle(machine)]
fn entries_of(
    cells: Vec<Cell>,
    depth: usize,
    frames: &mut Frames,
    pass: &mut Pass,
) -> Result<MarkedNodes>
    requires depth { depth ≤ 251 }
    requires room { length frames.old ≤ depth }
    requires inner { 1 ≤ depth }
    ensures frames { IfOk result (λ _. frames.new ≡ frames.old) }
    ensures entries { Keeps result (λ entries. Ok (entries, pass.new.numbers)) (each (tables.entry_of (within_at (depth - 1))) cells.items pass.old.numbers) }
    ensures paid { let inner = cell_blocks (Table [] 0 (cells.items ∷ []) 0) in
        IfOk result (λ _. TakesFor (totals (depth - 1) inner) pass.old.looks pass.new.looks) }
{
    let mut entries = MarkedNodes::none(pass.alloc);
    for cell in cells {
        let Cell {
            morerows,
            morecols,
            lines,
        } = cell;
        let lines = lines.into_lines(pass.alloc)?;
        let mut level = OpenBlock::new(pass.alloc, depth);
        read(&lines, &mut level, frames, pass)?;
        put_entry(pass.alloc, &mut entries, morerows, morecols, level.nodes)?;
    }
    Ok(entries)
}

/// Puts the entry of a cell with these nodes after the others.
#[inline(never)]
fn put_entry(
    alloc: Global,
    entries: &mut MarkedNodes,
    morerows: usize,
    morecols: usize,
    nodes: MarkedNodes,
) -> Result<()>
    ensures { Gives (λ _. entries.new ≡ entries.old ++ filled (entry_node morerows morecols 0) nodes ∷ []) result }
{
    entries.push(entry_of(alloc, morerows, morecols, nodes)?)?;
    Ok(())
}
