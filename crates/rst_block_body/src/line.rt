//! Lines of line blocks (Markup Specification, 'Line Blocks').
ghost use Rattle.std.specs.Prelude.{◌≡◌, ℕ, ◌+◌, ◌-◌, ◌*◌, ◌^◌, ◌<◌, length, unwrap_or, IfOk};
ghost use Rattle.rst_text.specs.Looked.{Looked};
ghost use Rattle.rst_text.specs.ViewBlock.{block_of};
ghost use Rattle.rst_block_nodes.specs.LineBlocks.{indented_by};
ghost use Rattle.rst_markup_blocks.specs.declared.begun.Begun.TheVariants.{Line};
ghost use Rattle.rst_block_state.specs.LineRuns.{indented_line, indentation_of};
ghost use Rattle.rst_block_state.specs.machine.Meanings.{open_run_of};
ghost use Rattle.rst_block_state.specs.machine.OpenBlocks.{Gives, HasLine, line_added};
ghost use Rattle.rst_block_state.specs.Texts.{joined};
ghost use Rattle.rst_block_body.specs.ReadSteps.{BeginsAt, IsReadStep};

use rst_block_nodes::BarText;
use rst_block_state::{
    OpenBlock, Pass, Result, Run, Step, first_line_or, indented, inside, joined, lines_between,
    number_at,
};
use rst_markup_blocks::indented_end;
use rst_markup_lines::Marker;
use rst_text::{View, skip};
use std::alloc::AllocError;
use std::mem;

/// A line of a line block. It joins the lines before it where no blank one is between.
pub fn bar_line(
    view: &View<'_>,
    level: &mut OpenBlock,
    marker: Marker,
    pass: &mut Pass,
) -> Result<Step>
    requires { BeginsAt (block_of view.now) level.old (Line marker) }
    ensures { IsReadStep 29 (block_of view.now) level.old pass.old level.new pass.new result }
{
    let at = level.at;
    let end = indented_end(view, at, &mut pass.looks);
    let text = bar_text(view, at, end, marker, pass)?;
    if matches!(&level.run, Run::Lines { end, .. } if at == *end) {
        add_line(level, text, end)?;
        return Ok(Step::Next);
    }
    level.close(view, pass)?;
    level.run = Run::Lines {
        lines: Vec::new(pass.alloc),
        end: at,
    };
    add_line(level, text, end)?;
    Ok(Step::Next)
}

/// Puts a line after the last of the open line block, and goes on where the line ends.
fn add_line(level: &mut OpenBlock, text: BarText, end: usize) -> Result<()>
    requires { level.old.at < 2 ^ 64 - 1 }
    ensures later { IfOk result (λ _. level.old.at < level.new.at) }
    ensures line { Gives (λ _. HasLine level.old level.new (line_added text end (open_run_of level.old.run))
        × (level.old.at < end → level.new.at ≡ end)) result }
{
    level.go_to(end);
    match mem::replace(&mut level.run, Run::None) {
        Run::Lines { mut lines, .. } => {
            lines.push(text)?;
            level.run = Run::Lines { lines, end };
        }
        run => level.run = run,
    }
    Ok(())
}

/// The text after a bar and in the indented lines below it. A bar that is alone has no indentation of its own, and
/// its text begins in the next line.
fn bar_text(
    view: &View<'_>,
    at: usize,
    end: usize,
    marker: Marker,
    pass: &mut Pass,
) -> Result<BarText, AllocError>
    requires inside { at < length (block_of view.now) }
    ensures line { IfOk result (λ text. (last : ℕ) → indented_by (unwrap_or text.indent last) text
        ≡ indented_line (indentation_of last marker) (block_of view.now) marker (record { start = at; stop = end })) }
    ensures numbers { pass.new.numbers ≡ pass.old.numbers }
    ensures looked { IfOk result (λ _. Looked 0 (1 + 2 * (end - (at + 1))) pass.old.looks pass.new.looks) }
{
    let line = number_at(view, at);
    let parts = *view.parts(at);
    let below = lines_between(view, at + 1, end);
    let below = inside(&below, indented(&below, 0, &mut pass.looks));
    let further = joined(pass.alloc, &below, &mut pass.looks)?;
    if marker.bare {
        let text_line = first_line_or(&below, line);
        return Ok(BarText {
            indent: None,
            line,
            text_line,
            text: further,
            parts,
        });
    }
    let first = skip(view.line(at, &mut pass.looks), marker.cut);
    let mut text = String::from_str(pass.alloc, first)?;
    if 0 < below.len() {
        text.push('\n')?;
        text.push_str(further.as_str())?;
    }
    Ok(BarText {
        indent: Some(marker.cut.saturating_sub(2)),
        line,
        text_line: line,
        text,
        parts,
    })
}
