//! Inline markup: the nodes and the messages of a text.
#![tactic(auto)]

use std::alloc::AllocError;

mod elements;
mod embedded;
mod labels;
mod mail;
mod nodes;
mod numbers;
mod reading;
mod references;
mod roles;
pub mod rows;
mod texts;
mod workspace;
mod written;

pub use elements::handed;
pub use mail::mailto;
pub use nodes::{Pieces, inline, inline_from};
pub use roles::is_wider_role;
pub use rst_inline_scan::plain_uri;
pub use texts::{part, unescape};
pub use workspace::Workspace;
