//! Tables of contents, made of the sections of a document (Directives, 'Table of Contents').
#![tactic(auto)]

pub mod contents;
mod entries;
mod outline;
pub mod rows;
mod title;
