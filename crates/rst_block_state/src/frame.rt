//! Blocks that wait for one inside them.
ghost use Rattle.std.specs.Prelude.{◌≡◌, ◌-◌, ◌<◌, []};
ghost use Rattle.rst_text.specs.ViewBlock.{block_of, source_of, placement_block};
ghost use Rattle.rst_block_state.specs.machine.Steps as spec;
ghost use Rattle.rst_block_state.specs.machine.Frames as frames;
ghost use Rattle.rst_block_state.specs.machine.Meanings.{IsNew};

use super::open_block::OpenBlock;
use super::step::Step;
use super::waits::Waits;
use rst_markup_blocks::Part;
use rst_text::{Placement, View};
use rst_tree_index::MarkedNodes;
use std::alloc::Global;
use std::mem;

/// A block that waits for one inside it.
#[derive(Drop)]
pub struct Frame {
    /// Where its lines are in their text.
    pub placement: Placement,
    pub level: OpenBlock,
    pub waits: Waits,
    /// The part of its lines that is read after the one that is being read.
    pub second: Option<Part>,
    /// The nodes of the part that was read before.
    pub nodes: MarkedNodes,
}

/// What follows the end of a block inside another.
#[derive(Drop)]
pub enum Ended<'a> {
    /// The other waits for one more block inside it, which is read next: these lines.
    Waiting(Frame, View<'a>),
    /// The other goes on: in these lines, with this.
    GoesOn(View<'a>, Step),
}

/// The block that is being read as one that waits for its parts, of which `second` is read after another. In its place a level
/// begins that is inside `depth` blocks.
pub fn opened(
    alloc: Global,
    view: &View<'_>,
    level: &mut OpenBlock,
    waits: Waits,
    second: Option<Part>,
    depth: usize,
) -> Frame
    requires second { spec.IsBlockIf (block_of view.now) second }
    requires waits { spec.IsWaiting (block_of view.now) level.old.at waits }
    ensures frame { frames.IsFrame (source_of view.now) result }
    ensures block { placement_block (source_of view.now) result.placement ≡ block_of view.now }
    ensures at { result.level.at ≡ level.old.at }
    ensures begin { level.new.at ≡ 0 }
    ensures kept { result.level ≡ level.old }
    ensures waits { (result.waits ≡ waits) × (result.second ≡ second) × (result.nodes ≡ []) }
    ensures begun { IsNew level.new }
    ensures depth { level.new.depth ≡ depth }
{
    Frame {
        placement: view.placement(),
        level: mem::replace(level, OpenBlock::new(alloc, depth)),
        waits,
        second,
        nodes: MarkedNodes::none(alloc),
    }
}
