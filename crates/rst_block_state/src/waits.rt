//! What a block waits for while one inside it is read.

use rst_block_nodes::{TableDirective, TableOptions, Texted};
use rst_markup_blocks::Part;
use rst_markup_directives::QuoteClass;
use rst_tree::{Node, Tag};

/// What a block waits for: the nodes of a block inside, and what is made of them.
#[derive(Drop)]
pub enum Waits {
    /// They are an item of the open list.
    ListItem {
        line: usize,
    },
    /// They come after the messages in the body of an item of the open list, which has heads before its body.
    ListedBody {
        line: usize,
        item: Tag,
        body: Tag,
        heads: Vec<Node>,
        notes: Vec<Node>,
    },
    /// They are a block quote, of which the rest comes next; it ends at `end`.
    Quote {
        line: usize,
        attribution: Option<Box<Texted>>,
        rest: Option<Part>,
        end: usize,
    },
    /// They go into an element, after what is there already.
    Element(Node),
    /// They are block quotes, which get this class, and messages.
    Quotes(QuoteClass),
    /// They get the classes of this element, which isn't in the tree.
    Classes(Node),
    /// They are the caption and the legend of a figure, which has its image. Its lines are those from place `start` up to
    /// place `end`.
    Figure {
        figure: Node,
        start: usize,
        end: usize,
    },
    /// A directive makes a table of them.
    Table(Box<OpenTable>),
    /// They are the content of a substitution definition.
    Replacement(Box<OpenReplacement>),
}

/// A table that a directive makes of its content, which is read. Its lines are those from place `start` up to place `end`.
#[derive(Drop)]
pub struct OpenTable {
    pub directive: TableDirective,
    /// It begins with its title and the messages on this, or with nothing.
    pub table: Node,
    pub asked: TableOptions,
    pub start: usize,
    pub end: usize,
}

/// A substitution definition whose replacement text is read.
#[derive(Drop)]
pub struct OpenReplacement {
    /// The name, white runs being one space.
    pub name: String,
    /// The number of its first line.
    pub line: usize,
    /// Its lines.
    pub source: String,
}
