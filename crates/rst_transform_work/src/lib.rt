//! What passes from one transform to the next: the document, its names and ids, and the messages so far; and how transforms read and change elements.
#![tactic(auto)]

mod context;
mod document;
mod lists;
mod problematics;
mod reading;
mod report;
pub mod rows;
mod texts;

pub use context::Context;
pub use document::Document;
pub use lists::{append, append_names, at_place, item_at, put_at, take_list};
pub use problematics::ProblematicAttrs;
pub use reading::{
    first_of_attribute, has, is_title, line_of, list_of_attribute, may_precede,
    number_of_attribute, text_of_attribute, text_or_empty,
};
pub use report::Report;
pub use texts::{add_names, copies, element, folded, identified, take_source};
