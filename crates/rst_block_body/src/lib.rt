//! The constructs of a body, a file for each: what reads the next one of a block. Explicit markup has a crate of its own.
#![tactic(auto, using(rst_block_state::proofs::Views::few_lines))]

pub mod adornment;
pub mod definition;
pub mod field;
mod item;
pub mod line;
pub mod list;
pub mod option;
pub mod paragraph;
pub mod quote;
pub mod table;
pub mod text;
