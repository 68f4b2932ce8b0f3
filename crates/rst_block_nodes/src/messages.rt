//! Messages.
ghost use Rattle.std.specs.Prelude.{◌≡◌, option_map, IfOk};
ghost use Rattle.rst_block_nodes.specs.Texts.{message_node};

use rst_tree::{Level, Node, Note, Result, Text};
use std::alloc::Global;

/// A message on the line of a number, with the source text that it quotes, if it quotes some (Document Tree,
/// 'system_message').
///
/// The only refusal is [`AllocError`].
pub fn message(
    alloc: Global,
    level: Level,
    line: usize,
    text: &str,
    block: Option<&str>,
) -> Result<Node>
    ensures { IfOk result (λ node. node ≡ message_node level line text.now (option_map (λ lines. lines.now) block.entry)) }
{
    let text = Text::from_str(alloc, text)?;
    let block = block.map(|lines| Text::from_str(alloc, lines)).transpose()?;
    let note = Note {
        level,
        line,
        text,
        block,
    };
    note.into_node(alloc)
}
