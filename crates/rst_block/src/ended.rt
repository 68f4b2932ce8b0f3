//! The end of a block inside another.
ghost use Rattle.std.specs.Prelude.{◌≡◌, suc, ◌-◌, ◌<◌, ◌≤◌, IfOk};
ghost use Rattle.rst_text.specs.ViewBlock.{source_of, placement_block};
ghost use Rattle.rst_block_state.specs.machine.Frames as frames;
ghost use Rattle.rst_block_state.specs.machine.Meanings.{Keeps, after, deepest, done_of};
ghost use Rattle.rst_block_state.specs.Nodes.{nodes_among};
ghost use Rattle.rst_block_state.specs.looks.Ledger.{Takes, ended_least, ended_most, least_after, most_after};

use super::resume::resume;
use rst_block_state::{Ended, Frame, OpenBlock, Pass, Result, inside};
use rst_text::View;
use std::mem;

/// What follows the end of a block inside the one that waits, where `level` is what was read of it, and `whole` shows all lines
/// of the text. A part that comes next is inside `depth` blocks. The level becomes that of what follows.
pub(crate) fn closed<'a>(
    whole: &View<'a>,
    frame: Frame,
    level: &mut OpenBlock,
    depth: usize,
    pass: &mut Pass,
) -> Result<Ended<'a>>
    requires frame { frames.IsFrame (source_of whole.now) frame }
    requires depth { depth ≡ suc frame.level.depth }
    requires deepest { frame.level.depth ≤ deepest }
    requires inner { 0 < level.old.depth }
    ensures ended { IfOk result (frames.IsEnded (source_of whole.now) frame level.new.at) }
    ensures kept { IfOk result (frames.KeepsFrame frame depth level.new) }
    ensures read { let S = source_of whole.now in
        let waiting = after frame.level (placement_block S frame.placement) frame.waits frame.second frame.nodes in
        Keeps result (λ e. frames.ended_as S level.new e pass.new.numbers) (waiting (nodes_among (done_of level.old)) pass.old.numbers) }
    ensures paid { let S = source_of whole.now in
        let B = placement_block S frame.placement in
        let most = most_after frame.level B frame.waits frame.second in
        let least = least_after frame.level B frame.waits frame.second in
        IfOk result (λ e. Takes most least pass.old.looks (ended_most S level.new e) (ended_least S level.new e) pass.new.looks) }
{
    let Frame {
        placement,
        level: outer,
        waits,
        second,
        mut nodes,
    } = frame;
    let view = whole.at(placement);
    let done = mem::replace(level, outer);
    nodes.append(done.nodes)?;
    match second {
        Some(second) => {
            let part = inside(&view, second);
            let frame = Frame {
                placement,
                level: mem::replace(level, OpenBlock::new(pass.alloc, depth)),
                waits,
                second: None,
                nodes,
            };
            Ok(Ended::Waiting(frame, part))
        }
        None => {
            let next = resume(&view, level, waits, nodes, pass)?;
            Ok(Ended::GoesOn(view, next))
        }
    }
}
