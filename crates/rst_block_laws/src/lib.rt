//! How many levels the trees of blocks have, and of what their texts consist.
#![tactic(auto)]

/// Laws on the trees of blocks.
pub mod laws;
