//! Titles of sections, before the sections are made (Markup Specification, 'Sections').
ghost use Rattle.std.specs.Prelude.{◌≡◌};
ghost use Rattle.rst_block_nodes.specs.Sections.{same_style};

use super::texted::Texted;
use rst_tree::Node;
use rst_tree_index::MarkedNodes;

/// The style of a title: its character, and whether it has an overline.
#[derive(Clone, Copy)]
pub struct Style {
    pub character: char,
    pub overlined: bool,
}

impl Style {
    /// Whether two styles are the same.
    pub fn is(self, other: Style) -> bool
        ensures { result ≡ same_style self other }
    {
        self.character == other.character && self.overlined == other.overlined
    }
}

/// A title at its place in the document.
#[derive(Drop)]
pub struct Heading {
    /// The nodes that come before it, since the last title.
    pub nodes: MarkedNodes,
    pub style: Style,
    /// The title, with the messages of its text.
    pub title: Texted,
    /// The message on its adornment.
    pub warning: Option<Node>,
    /// The number of the line of its text.
    pub line: usize,
    /// Its lines.
    pub source: String,
}
