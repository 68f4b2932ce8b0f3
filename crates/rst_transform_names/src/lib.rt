//! Names and ids of the elements of a document.
#![tactic(auto)]

mod duplicate_messages;
mod ids;
mod inside;
pub mod laws;
mod message_ids;
mod names;
mod placing;
mod queue;
mod quiet;
mod registrants;
mod registration;
mod registry;
pub mod rows;
mod rulings;
mod writing;

pub use ids::{Ids, number_in};
pub use names::{Holder, NameEntry, Names, Strength};
pub use registration::{Registered, register};
