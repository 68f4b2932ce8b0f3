//! Blocks: the lines of a document, or of a part of it, as nodes and sections (Markup Specification, 'Syntax Details'). Here is the
//! machine that goes from construct to construct; these, and the state that it keeps, are in the crates below.
#![tactic(auto, using(rst_block_state::proofs::Views::few_lines))]

mod ended;
mod frames;
pub mod laws;
mod machine;
mod parsing;
mod resume;
mod step;

pub use parsing::parse;
pub use rst_block_state::BlockFault;
pub use rst_tree_index::Parsed;
