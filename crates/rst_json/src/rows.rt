//! Worked examples, as theorems on the definitions alone: the prover computes the JSON or the records of what is written out.
pub mod json;
pub mod reader;
pub mod records;
