//! Of what the texts of trees consist.
#![tactic(auto)]

/// Laws on texts.
pub mod laws;
