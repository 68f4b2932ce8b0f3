//! Constructs that join with those before them: items of one list, lines of one line block, explicit markup.
ghost use Rattle.std.specs.Prelude.{◌≡◌, suc, ◌-◌, ◌∷◌, ◌++◌, Some, None, IfSome, IfNone, option_map, IfOk};
ghost use Rattle.rst_block_nodes.specs.LineBlocks.{indented};
ghost use Rattle.rst_block_nodes.specs.Sections.{filled};
ghost use Rattle.rst_block_state.specs.Constructs.{enumerated_item};
ghost use Rattle.rst_block_state.specs.Joins as joins;
ghost use Rattle.rst_block_state.specs.Joins.{enumerators, enumerators_by, joined_ending, list_joining, list_joining_after};
ghost use Rattle.rst_block_state.specs.machine.Meanings.{deepest, joining_in, list_kind_in, open_run_of};
ghost use Rattle.rst_block_state.specs.machine.OpenBlocks.{Adds};
ghost use Rattle.rst_block_state.specs.machine.Rest.{end_of_run, joining_of_run, open_lines, run_nodes};

use super::fault::Result;
use super::texts::Pass;
use rst_block_nodes::{BarText, completed, line_block};
use rst_markup_lines::{
    Enumerator, Format, Ordinals, Sequence, first_reading, is_same_format, ordinal_in,
};
use rst_tree::Node;
use rst_tree_index::MarkedNodes;
use std::alloc::{AllocError, Global};

/// How many blocks a block may be inside.
pub const DEEPEST: usize = 250;

/// What an item must be to join an enumerated list.
#[derive(Clone, Copy, PartialEq, Eq)]
pub struct Sequel {
    pub format: Format,
    pub sequence: Sequence,
    /// The ordinal of the last item; none where that is `#`: then only `#` goes on.
    pub last: Option<u64>,
}

/// What makes items those of one list.
#[derive(Clone, Copy, PartialEq, Eq)]
pub enum ListKind {
    Bullet(char),
    Enumerated(Sequel),
    Definition,
    Field,
    OptionItem,
}

/// A list that more items may join.
#[derive(Drop)]
pub struct OpenList {
    pub kind: ListKind,
    /// The place after the last item.
    pub end: usize,
    /// Messages that come before the list.
    pub before: Vec<Node>,
    /// The list without its items.
    pub list: Node,
    pub items: MarkedNodes,
    /// Messages that come after the list.
    pub messages_after: Vec<Node>,
}

/// Neighbouring constructs that may go on.
#[derive(Drop)]
pub enum Run {
    None,
    /// In a box, since a block that has one moves often.
    List(Box<OpenList>),
    Lines { lines: Vec<BarText>, end: usize },
    Explicit { end: usize },
}

impl ListKind {
    /// The text of the warning where no blank line follows the list.
    fn ending(self) -> &'static str
        ensures { joined_ending (joining_in self) ≡ Some result.now }
    {
        match self {
            ListKind::Bullet(_) => "Bullet list ends without a blank line; unexpected unindent.",
            ListKind::Enumerated(_) =>
                "Enumerated list ends without a blank line; unexpected unindent.",
            ListKind::Definition =>
                "Definition list ends without a blank line; unexpected unindent.",
            ListKind::Field => "Field list ends without a blank line; unexpected unindent.",
            ListKind::OptionItem => "Option list ends without a blank line; unexpected unindent.",
        }
    }
}

/// Whether an ordinal is the next after the last one.
fn is_next_after(last: u64, ordinal: Option<u64>) -> bool
    ensures { result ≡ joins.is_next_after last ordinal }
{
    match ordinal {
        Some(ordinal) => ordinal.checked_sub(1) == Some(last),
        None => false,
    }
}

impl Sequel {
    /// What joins a list that begins with this enumerator.
    pub fn of(enumerator: Enumerator) -> Sequel
        ensures { enumerators result.format result.sequence result.last ≡ list_joining (enumerated_item enumerator) }
    {
        let ordinals = enumerator.written.ordinals;
        Sequel {
            format: enumerator.format,
            sequence: first_reading(ordinals).sequence,
            last: match ordinals {
                Ordinals::Auto => None,
                _ => Some(first_reading(ordinals).ordinal),
            },
        }
    }

    /// What joins the list next after this enumerator, if that joins it.
    pub fn after(self, enumerator: Enumerator) -> Option<Sequel>
        ensures { option_map (λ next. enumerators next.format next.sequence next.last) result
            ≡ list_joining_after (enumerators self.format self.sequence self.last) (enumerated_item enumerator) }
    {
        if !is_same_format(self.format, enumerator.format) {
            return None;
        }
        self.after_ordinals(enumerator.written.ordinals)
    }

    /// The same, by the ordinals of an enumerator of the list's format.
    fn after_ordinals(self, ordinals: Ordinals) -> Option<Sequel>
        ensures { option_map (λ next. enumerators next.format next.sequence next.last) result
            ≡ enumerators_by self.format self.sequence self.last ordinals }
    {
        if matches!(ordinals, Ordinals::Auto) {
            return Some(Sequel { last: None, ..self });
        }
        let last = self.last?;
        let ordinal = ordinal_in(self.sequence, ordinals);
        if is_next_after(last, ordinal) {
            Some(Sequel {
                last: ordinal,
                ..self
            })
        } else {
            None
        }
    }
}

impl Run {
    /// The place after the run, and the text of the warning where no blank line follows it.
    pub fn ending(&self) -> Option<(usize, &'static str)>
        ensures none { IfNone result (joined_ending (joining_of_run (open_run_of self.now)) ≡ None) }
        ensures end { IfSome result (λ ending. ending.0 ≡ end_of_run (open_run_of self.now)) }
        ensures text { IfSome result (λ ending. joined_ending (joining_of_run (open_run_of self.now)) ≡ Some ending.1.now) }
    {
        match self {
            Run::None => None,
            Run::List(list) => Some((list.end, list.kind.ending())),
            Run::Lines { end, .. } => Some((*end, "Line block ends without a blank line.")),
            Run::Explicit { end } => Some((
                *end,
                "Explicit markup ends without a blank line; unexpected unindent.",
            )),
        }
    }

    /// The kind of the list that is open, if one is.
    pub fn list_kind(&self) -> Option<ListKind>
        ensures { result ≡ list_kind_in self.now }
    {
        match self {
            Run::List(list) => Some(list.kind),
            _ => None,
        }
    }

    /// Puts the nodes of the run after others, in a block of this depth.
    pub fn put(self, nodes: &mut MarkedNodes, depth: usize, pass: &mut Pass) -> Result<()>
        ensures nodes { Adds (run_nodes (suc deepest - depth) (open_run_of self) pass.old.numbers)
            nodes.old nodes.new pass.new.numbers result }
        ensures looks { pass.new.looks ≡ pass.old.looks }
    {
        match self {
            Run::None | Run::Explicit { .. } => Ok(()),
            Run::List(open) => Ok(put_list(pass.alloc, nodes, Box::into_inner(open))?),
            Run::Lines { lines, .. } => put_lines(nodes, lines, depth, pass),
        }
    }
}

/// Puts a list between its messages after other nodes.
fn put_list(alloc: Global, nodes: &mut MarkedNodes, open: OpenList) -> Result<(), AllocError>
    ensures { IfOk result (λ _. nodes.new
        ≡ nodes.old ++ open.before.items ++ filled open.list open.items ∷ open.messages_after.items) }
{
    let OpenList {
        before,
        list,
        items,
        messages_after,
        ..
    } = open;
    nodes.append_new(before)?;
    nodes.push(completed(alloc, list, items)?)?;
    nodes.append_new(messages_after)
}

/// Puts a line block and the messages of its texts after other nodes.
fn put_lines(
    nodes: &mut MarkedNodes,
    lines: Vec<BarText>,
    depth: usize,
    pass: &mut Pass,
) -> Result<()>
    ensures nodes { Adds (run_nodes (suc deepest - depth) (open_lines 0 (indented lines.items)) pass.old.numbers)
        nodes.old nodes.new pass.new.numbers result }
    ensures looks { pass.new.looks ≡ pass.old.looks }
{
    let block = line_block(pass.alloc, lines, depth, DEEPEST, &mut pass.numbers)?;
    nodes.push_new(block.element)?;
    Ok(nodes.append_new(block.notes)?)
}
