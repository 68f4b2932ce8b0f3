//! Tables of contents (Directives, 'Table of Contents').
ghost use Rattle.rst_text.specs.Block.{first_parts};
ghost use Rattle.rst_text.specs.Looked.{Looked};
ghost use Rattle.rst_text.specs.ViewBlock.{block_of};
ghost use Rattle.std.specs.Prelude.{IfOk};
ghost use Rattle.rst_block_nodes.specs.TableOfContents.{table_of_contents};
ghost use Rattle.rst_block_state.specs.Directives.{title_text};
ghost use Rattle.rst_block_markup.specs.MarkupSteps.{HoldsNodes, read_of_directive, text_lines};
ghost use Rattle.rst_markup_directives.specs.Call.{IsArgumentIn};
ghost use Rattle.rst_block_state.specs.machine.OpenBlocks.{Gives};

use super::directive::Found;
use rst_block_nodes::table_of_contents;
use rst_block_state::{Pass, Result, inside, joined};
use rst_markup_directives::Argument;
use rst_text::View;
use rst_tree::Node;

/// A table of contents in a line, and the messages on its title.
pub(crate) fn contents_nodes(
    view: &View<'_>,
    line: usize,
    found: &Found,
    pass: &mut Pass,
) -> Result<Vec<Node>>
    requires { IsArgumentIn (block_of view.now) found.now.argument }
    ensures read { let B = block_of view.now in
        let read = read_of_directive found.now in
        let nodes = table_of_contents (first_parts B) read.options (title_text read.argument B) line in
        Gives (HoldsNodes nodes pass.old.numbers pass.new.numbers) result }
    ensures looked { IfOk result (λ _. Looked 0 (text_lines found.now) pass.old.looks pass.new.looks) }
{
    let alloc = pass.alloc;
    let parts = view.parts(0);
    let options = found.options.as_slice();
    let Argument::Title(title) = &found.argument else {
        let numbers = &mut pass.numbers;
        return Ok(table_of_contents(alloc, parts, options, None, line, numbers)?);
    };
    let text = joined(alloc, &inside(view, *title), &mut pass.looks)?;
    let text = Some(text.as_str());
    let numbers = &mut pass.numbers;
    Ok(table_of_contents(alloc, parts, options, text, line, numbers)?)
}
