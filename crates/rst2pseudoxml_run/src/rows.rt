//! Worked examples of the whole program, as theorems on the definition alone: the prover computes what is printed for a text that is written out,
//! and compares it with the texts that are written out beside it.

pub mod bodies;
pub mod directives;
pub mod docinfo;
pub mod documents;
pub mod footnotes;
pub mod inline;
pub mod lines;
pub mod order;
pub mod refusals;
pub mod settings;
pub mod statuses;
pub mod substitutions;
pub mod tables;
pub mod targets;
pub mod transitions;
pub mod wider;
