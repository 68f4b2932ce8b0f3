//! What a directive is.
ghost use Rattle.std.specs.Prelude.{◌≡◌};
ghost use Rattle.rst_markup_directives.specs.Call as spec;

use super::argument::Argument;
use super::fault::DirectiveFault;
use super::kind::Kind;
use super::options::Setting;
use rst_markup_blocks::Part;

/// Where a directive is.
#[derive(Clone, Copy, Debug, PartialEq, Eq)]
pub enum Place {
    /// At the level of sections.
    Top,
    /// In a body element.
    Body,
    /// In a substitution definition.
    Substitution,
}

/// The content of a directive, in two parts, of which each may be empty: one before its options, and one after them.
#[derive(Clone, Copy, Debug, PartialEq, Eq)]
pub struct Content {
    pub first: Part,
    pub second: Part,
}

impl Content {
    /// Whether no part has a line.
    pub fn is_empty(self) -> bool
        ensures { result ≡ spec.is_empty self }
    {
        self.first.from == self.first.to && self.second.from == self.second.to
    }
}

/// What a directive is.
#[derive(Debug, Drop)]
pub enum Directive {
    /// A right one: its options are in the order of the source.
    Found {
        kind: Kind,
        argument: Argument,
        options: Vec<Setting>,
        content: Content,
    },
    /// One that is handed back.
    Handed,
    /// A wrong one, and the lines that it is in.
    Wrong {
        fault: DirectiveFault,
        source: Part,
    },
}
