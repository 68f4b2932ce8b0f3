//! A document's tree.
ghost use Rattle.rst_settings.specs.Profile.{profile_of};
ghost use Rattle.rst_settings.specs.declared.Settings.{Settings};
ghost use Rattle.rst_block_state.specs.looks.Budget.{IsWithinBounds};
ghost use Rattle.rst_block_state.specs.Documents as spec;
ghost use Rattle.std.specs.Prelude.{IfOk};

use super::frames::Frames;
use super::machine::read;
use rst_block_nodes::{Numbers, document};
use rst_block_state::{OpenBlock, Pass, Result};
use rst_text::{Lines, Looks};
use rst_tree_index::Parsed;
use std::alloc::Global;

/// Reads a document (Markup Specification, 'Syntax Details').
///
/// It is refused with [`BlockFault::TooDeep`] where a block that isn't blank is inside more than 250 blocks: at the first such
/// block; and with [`BlockFault::NoMemory`].
pub fn parse(alloc: Global, lines: &Lines) -> Result<Parsed>
    ensures tree { (settings : Settings) → spec.ParsesLines (spec.document (profile_of settings) lines.now 0) result }
    ensures looks { (settings : Settings) → IfOk result (λ parsed. IsWithinBounds (profile_of settings) lines.now parsed.looks) }
{
    let mut pass = Pass {
        alloc,
        looks: Looks::none(),
        numbers: Numbers::none(alloc),
    };
    let mut frames = Frames::none(alloc);
    let mut level = OpenBlock::new(alloc, 0);
    read(lines, &mut level, &mut frames, &mut pass)?;
    Ok(Parsed {
        tree: document(alloc, level.nodes, level.headings)?,
        messages: pass.numbers.given(),
        looks: pass.looks.count(),
    })
}
