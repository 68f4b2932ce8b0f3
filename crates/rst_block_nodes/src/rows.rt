//! Worked examples of elements and sections, as theorems on the definitions alone: the prover computes what a definition gives for a text that is
//! written out.

pub mod elements;
pub mod sections;
