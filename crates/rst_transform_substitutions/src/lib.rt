//! Substitution references and their definitions (Markup Specification, 'Substitution Definitions').
#![tactic(auto)]

mod definitions;
pub mod expand;
mod expansion;
mod listing;
mod order;
pub mod rows;
mod sizes;
