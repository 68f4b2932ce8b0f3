//! Recognizers of blocks: what begins at a line, and where it ends.
#![tactic(auto)]

mod adornment_line;
mod attribution;
mod begun;
mod construct;
mod constructs;
mod ends;
mod explicit_markup;
mod extents;
mod form;
mod forms;
mod kind;
pub mod laws;
mod lines;
mod part;
mod row;
pub mod rows;
mod table_line;
mod table_rows;

pub use adornment_line::adorned_at;
pub use attribution::{Attribution, attribution_at};
pub use begun::{Begun, begun_at, kind_of};
pub use construct::Construct;
pub use ends::{indented_end, item_end};
pub use explicit_markup::{ExplicitForm, explicit_form, hanging_part};
pub use extents::explicit;
pub use form::{Adorned, TextForm, text_form};
pub use forms::{CommentCause, Explicit, Invocation};
pub use kind::Kind;
pub use lines::{LineTest, below_text, lines_end, text_at};
pub use part::Part;
pub use rst_markup_lines::Characters;
pub use table_line::is_drawn;
pub use table_rows::{SimpleBorders, is_as_long, simple_borders};
