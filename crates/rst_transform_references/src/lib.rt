//! References and what they lead to: anonymous references, indirect targets, footnotes and citations, and references by name (Markup
//! Specification, 'Hyperlink Targets', 'Footnotes', 'Citations', 'Reference Names').
#![tactic(auto)]

mod aliases;
mod anonymous;
mod chains;
mod changes;
mod failing;
mod footnote_labels;
mod footnotes;
mod holders;
mod indirect;
mod leads;
mod links;
mod orders;
mod resolve;
pub mod rows;

pub use anonymous::resolve_anonymous;
pub use changes::with_changes;
pub use footnotes::resolve_footnotes;
pub use indirect::resolve_indirect;
pub use links::{Change, Links};
pub use resolve::resolve_names;
