//! Trees and messages as JSON (RFC 8259).
#![tactic(auto)]

mod element;
pub mod laws;
mod list;
mod message;
mod record;
pub mod rows;
mod string;

pub use element::put_node;
pub use list::enclose;
pub use message::put_note;
pub use record::put_record;
