//! How many levels transforms add to trees, and of what the texts that they make consist.
#![tactic(auto)]

/// Laws on transforms.
pub mod laws;
