//! The bibliography of a document, from its leading field list (Markup Specification, 'Bibliographic Fields').
#![tactic(auto)]

mod authors;
mod bibliography;
pub mod docinfo;
mod field;
mod keywords;
pub mod rows;
