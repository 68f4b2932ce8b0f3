//! The document tree, its messages and its printed form.
#![tactic(auto)]

mod attrs;
mod entry;
mod fault;
mod key;
pub mod laws;
mod messages;
mod node;
mod note;
mod output;
mod page;
mod phrase;
mod placing;
mod printing;
mod reading;
mod rewriting;
pub mod rows;
mod tag;
mod text;
mod tree;
mod walking;

pub use attrs::{Attr, Attrs, Value};
pub use entry::{Entry, ValueRef};
pub use fault::{PrintFault, Result};
pub use key::Key;
pub use node::{Children, Node};
pub use note::{Level, Note};
pub use phrase::Phrase;
pub use printing::{message_line, print, print_with_source};
pub use reading::{Reader, read_elements};
pub use rewriting::{Rewrite, Rewriter, rewrite_in};
pub use tag::Tag;
pub use text::{Text, Texts};
pub use tree::Tree;
pub use walking::{Visitor, walk};
