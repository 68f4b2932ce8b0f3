//! A run: from a reader to two writers, and the line by which a fault is reported.
#![tactic(auto)]

mod document;
mod end;
mod error_text;
mod input;
pub mod laws;
mod marks;
mod reporting;
pub mod rows;
mod running;
mod starting;

pub use document::{document_of, parsed_of};
pub use end::End;
pub use error_text::{halting, is_reported, status_of};
pub use reporting::{Stop, report};
pub use running::{run, show};
pub use starting::{run_over, words};
