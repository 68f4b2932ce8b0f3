//! The finished document: registration and the transforms, one after the other.
#![tactic(auto)]

mod finishing;
pub mod laws;
mod linking;
pub mod rows;

pub use finishing::{Finished, TransformFault, finish};
pub use rst_settings::Settings;
