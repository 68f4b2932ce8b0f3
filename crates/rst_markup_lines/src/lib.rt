//! Marks: what is at the front of a line and determines what the line is.
#![tactic(auto)]

mod adornment;
mod attribution;
mod border;
mod class;
mod closing;
mod decimal;
mod enumerator;
mod explicit_marks;
mod field;
mod marker;
mod option;
mod options;
mod place;
mod roman;
pub mod rows;
mod text;

pub use adornment::{Adornment, adornment_of, is_punctuation};
pub use attribution::attribution_of;
pub use border::{is_grid_border, is_simple_border};
pub use class::{Class, run};
pub use closing::ends_in_colons;
pub use decimal::number_of;
pub use enumerator::{
    Case, Enumerator, Format, Ordinals, Reading, Sequence, Written, begins_next, enumerator_of,
    first_reading, is_same_format, ordinal_in,
};
pub use explicit_marks::{
    DirectiveMark, LabelKind, LabelMark, SubstitutionMark, TargetMark, directive_mark_of, dots,
    label_of, substitution_of, target_of, underscores,
};
pub use field::{FieldMark, field_of};
pub use marker::{Marker, bullet, doctest, line_bar, marker_of};
pub use option::{Delimiter, option_marker};
pub use options::{ListedArgument, ListedOption, listed_options};
pub use place::Characters;
pub use text::{begins_with, first_char, is_blank, is_loose};
