//! Transforms that move elements: classes by directives, titles, internal targets, transitions and the last section.
#![tactic(auto)]

pub mod classes;
pub mod last_section;
pub mod laws;
pub mod rows;
pub mod targets;
pub mod title;
pub mod transitions;
