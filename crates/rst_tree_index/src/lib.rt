//! Nodes with the places of the elements that registration needs.
#![tactic(auto)]

mod linked;
mod marked;
mod marked_nodes;
mod marks;
mod parsed;
mod registered;

pub use linked::{is_internal, is_linked_tag};
pub use marked::{Element, Marked};
pub use marked_nodes::{MarkedIter, MarkedNodes};
pub use parsed::Parsed;
