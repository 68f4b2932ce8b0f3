//! Worked examples of references and what they lead to, as theorems on the definitions alone: the prover computes what a definition gives for a
//! document that is written out.

pub mod footnotes;
pub mod hyperlinks;
pub mod links;
pub mod references;
