//! The elements of the document tree that blocks make: lists, footnotes, targets, tables, images and the others, from
//! texts and numbers (Document Tree, 'Element Reference'); and the sections that titles make of a document's nodes.
//! Nothing here looks at lines of the source.
#![tactic(auto)]

mod contents;
mod contents_table;
mod directives;
mod fault;
mod formula;
mod heading;
mod images;
mod labels;
mod laws;
mod line_blocks;
mod list_tables;
mod lists;
mod messages;
mod nodes;
mod numbers;
pub mod rows;
mod sectioning;
mod settings;
mod table_faults;
mod table_requests;
mod table_titles;
mod tables;
mod targets;
mod terms;
mod texted;
mod titled_tables;
mod values;

pub use contents::{append, completed, filled};
pub use contents_table::table_of_contents;
pub use directives::{
    directive_element, handed_directive, literal_block, subtitle, with_options, with_title_class,
};
pub use fault::BlockFault;
pub use formula::formulas;
pub use heading::{Heading, Style};
pub use images::{figure, image};
pub use labels::{citation, footnote};
pub use laws::texts_are_read;
pub use line_blocks::{BarText, line_block};
pub use list_tables::list_table;
pub use lists::{bullet_list, enumerated_list, option, start_message};
pub use messages::message;
pub use nodes::{element_of, plain, preserved, text_nodes};
pub use numbers::Numbers;
pub use sectioning::document;
pub use table_faults::{TableDirective, TableFault, table_fault_text};
pub use table_requests::{TableOptions, table_options};
pub use tables::{entry, tgroup};
pub use targets::{may_replace, substitution_definition, substitution_name, target};
pub use terms::{Heads, term_and_classifiers};
pub use texted::{Texted, with_text};
pub use titled_tables::titled_table;
