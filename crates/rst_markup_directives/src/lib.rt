//! Directives: their arguments, options and content, and what can be wrong with them (Docutils, Directives).
#![tactic(auto)]

mod argument;
mod calls;
mod characters;
mod contents;
mod fault;
mod found;
mod judgement;
mod kind;
mod layout;
mod lines;
mod measure;
mod messages;
mod option;
mod options;
pub mod rows;
mod target;
mod value;
mod widths;

pub use argument::Argument;
pub use calls::{called, directive};
pub use contents::Backlinks;
pub use fault::{Detail, DirectiveFault};
pub use found::{Content, Directive, Place};
pub use kind::{
    Allowed, ArgumentKind, ContentKind, Kind, OptionSet, PartName, QuoteClass, is_wider_directive,
};
pub use measure::Alignment;
pub use messages::{level_of, message};
pub use option::OptionName;
pub use options::Setting;
pub use target::{Target, target_value};
pub use value::OptionValue;
pub use widths::Widths;
