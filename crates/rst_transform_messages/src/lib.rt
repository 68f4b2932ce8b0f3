//! The list of messages of a document, and the filter that takes out those below the report level (Configuration, 'report_level', 'halt_level').
#![tactic(auto)]

pub mod filter;
mod messages;
pub mod rows;

pub use messages::Messages;
