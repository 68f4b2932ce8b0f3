//! Worked examples of documents, as theorems on the definitions alone: the prover computes what a text that is written out means, and compares
//! it with the tree that is written out beside it.

pub mod blocks;
pub mod contents;
pub mod directives;
pub mod explicit;
pub mod handed;
pub mod list_tables;
pub mod lists;
pub mod sections;
pub mod tables;
pub mod texts;
pub mod titled_tables;
