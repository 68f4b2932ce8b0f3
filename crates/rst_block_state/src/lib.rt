//! The state of reading blocks and what it means: a block of which some lines are read, the blocks that wait for it, what a step
//! leads to, and the definition of a block that they are measured by. What reads the constructs is in the crates above.
#![tactic(auto, using(crate::proofs::Views::few_lines))]

mod fault;
mod frame;
mod heading;
mod open_block;
mod paragraph;
mod part;
pub mod rows;
mod run;
mod step;
mod texts;
mod waits;

pub use fault::Result;
pub use frame::{Ended, Frame, opened};
pub use heading::{heading_of, short_warning};
pub use open_block::OpenBlock;
pub use paragraph::announced;
pub use part::{hanging, indented, inside, item_part};
pub use rst_block_nodes::BlockFault;
pub use run::{DEEPEST, ListKind, OpenList, Run, Sequel};
pub use step::Step;
pub use texts::{
    Pass, alone, characters, excerpt, excerpt_after, first_line_or, joined, lines_between,
    number_at, push, source, split_nodes,
};
pub use waits::{OpenReplacement, OpenTable, Waits};
