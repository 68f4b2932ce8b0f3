//! Explicit markup: footnotes, citations, targets, comments, substitution definitions, and directives with their figures.
#![tactic(auto)]

mod classes;
mod closed;
mod contents;
mod directive;
mod explicit;
mod figure;
mod quotes;
mod single;
mod substitution;
mod tables;

pub use classes::finished_classes;
pub use explicit::explicit_markup;
pub use figure::finished_figure;
pub use quotes::finished_quotes;
pub use substitution::finished_replacement;
pub use tables::finished_table;
