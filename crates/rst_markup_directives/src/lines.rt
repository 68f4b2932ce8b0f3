//! The lines of a directive's block.
ghost use Rattle.std.specs.Prelude.{◌≡◌, ◌+◌, ◌≤◌, [], length, IfOk, if◌then◌else◌};
ghost use Rattle.rst_markup_blocks.specs.Prelude.{Looked, capped, block_of};
ghost use Rattle.rst_markup_directives.specs.Lines as spec;

use rst_markup_lines::is_blank;
use rst_text::{Looks, View};
use std::alloc::{AllocError, Global};

/// The lines before the first blank one, or none.
pub(crate) fn run_of<'a>(
    alloc: Global,
    none: bool,
    lines: &View<'a>,
    looks: &mut Looks,
) -> Result<Vec<&'a str>, AllocError>
    ensures texts { IfOk result (λ run. spec.texts_of run.items ≡ (if none then [] else spec.first_run (block_of lines.now))) }
    ensures within { IfOk result (λ run. length run.items ≤ length (block_of lines.now)) }
    ensures looked { Looked 0 (length (block_of lines.now)) looks.old looks.new }
    ensures through { IfOk result (λ run. looks.new ≤ looks.old + length run.items + 1) }
    ensures each { IfOk result (λ run. capped (looks.old + length run.items) ≤ looks.new) }
{
    let mut run = Vec::new(alloc);
    if none {
        return Ok(run);
    }
    for i in 0..lines.len() {
        let line = lines.line(i, looks);
        if is_blank(line) {
            break;
        }
        run.push(line)?;
    }
    Ok(run)
}

/// A text with one line more, after a line feed if it isn't the first; an empty line is left out.
pub(crate) fn add_line(text: &mut Vec<char>, line: &[char]) -> Result<(), AllocError>
    ensures { IfOk result (λ _. text.new.items ≡ spec.with_line text.old.items line.now) }
{
    if !text.is_empty() && !line.is_empty() {
        text.push('\n')?;
    }
    text.extend_from_slice(line)
}
