//! Titles of sections, as they are read.
ghost use Rattle.std.specs.Prelude.{◌≡◌, ◌∷◌, [], Ok, string_bytes, chars, IfOk};
ghost use Rattle.rst_block_nodes.specs.Sections.{title_of};
ghost use Rattle.rst_block_state.specs.Titles.{short_warning, title_item, titled};

use super::texts::Pass;
use rst_block_nodes::{Heading, Style, message, with_text};
use rst_settings::Parts;
use rst_tree::{Level, Node, Tag};
use rst_tree_index::MarkedNodes;
use std::alloc::{AllocError, Global};

/// A title with this text, and no nodes before it.
pub fn heading_of(
    parts: &Parts,
    style: Style,
    text: &str,
    line: usize,
    warning: Option<Node>,
    source: String,
    pass: &mut Pass,
) -> Result<Heading, AllocError>
    ensures title { IfOk result (λ heading. title_item parts.now style (chars text.now) line warning (string_bytes source) pass.old.numbers
        ≡ Ok (titled (title_of heading) ∷ [], pass.new.numbers)) }
    ensures looks { pass.new.looks ≡ pass.old.looks }
{
    let numbers = &mut pass.numbers;
    let title = with_text(pass.alloc, parts, Tag::Title, line, text, line, numbers)?;
    Ok(Heading {
        nodes: MarkedNodes::none(pass.alloc),
        style,
        title,
        warning,
        line,
        source,
    })
}

/// The message on an overline or underline that is shorter than its title, if it is; its line has this number.
pub fn short_warning(
    alloc: Global,
    short: bool,
    line: usize,
    text: &str,
    lines: &str,
) -> Result<Option<Node>, AllocError>
    ensures { IfOk result (λ warning. warning ≡ short_warning short line text.now lines.now) }
{
    if !short {
        return Ok(None);
    }
    Ok(Some(message(alloc, Level::Warning, line, text, Some(lines))?))
}
