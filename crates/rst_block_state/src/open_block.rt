//! A block that is being read.
ghost use Rattle.std.specs.Prelude.{◌≡◌, ◌<◌, []};

use super::fault::Result;
use super::run::{ListKind, OpenList, Run};
use super::step::Step;
use super::texts::{Pass, number_at};
use super::waits::Waits;
use rst_block_nodes::{Heading, message};
use rst_markup_blocks::{Part, text_at};
use rst_markup_lines::is_blank;
use rst_text::View;
use rst_tree::{Level, Node};
use rst_tree_index::{Marked, MarkedNodes};
use std::alloc::Global;
use std::mem;

/// What was read of a block so far.
#[derive(Drop)]
pub struct OpenBlock {
    /// How many blocks it is inside; 0 for the document.
    pub depth: usize,
    /// The place of the next line.
    pub at: usize,
    /// The nodes and messages since the last title, but for those of the open run.
    pub nodes: MarkedNodes,
    /// The constructs before the next line that it may join.
    pub run: Run,
    /// The titles so far. Only the document has some.
    pub headings: Vec<Heading>,
    pub ghost untitled: { 0 < depth → headings.items ≡ [] },
}

impl OpenBlock {
    ghost use Rattle.std.specs.Prelude.{ℕ, suc, None, ◌+◌, ◌-◌, ◌^◌, ◌≤◌, ◌==◌, ◌∷◌, drop};
    ghost use Rattle.rst_text.specs.Looked.{capped};
    ghost use Rattle.rst_text.specs.ViewBlock.{block_of};
    ghost use Rattle.rst_block_state.specs.machine.Meanings.{IsNew, deepest, joining_in, open_run_of};
    ghost use Rattle.rst_block_state.specs.looks.Ledger.{run_looks};
    ghost use Rattle.rst_block_state.specs.machine.OpenBlocks as spec;
    ghost use Rattle.rst_block_state.specs.machine.Rest.{closed_run, no_run};
    ghost use Rattle.rst_block_state.specs.Texts.{warned};
    ghost use Rattle.rst_block_state.specs.declared.step.Step.TheVariants.{Open};

    /// A block of which nothing was read.
    pub fn new(alloc: Global, depth: usize) -> OpenBlock
        ensures at { result.at ≡ 0 }
        ensures depth { result.depth ≡ depth }
        ensures begun { IsNew result }
    {
        OpenBlock {
            depth,
            at: 0,
            nodes: MarkedNodes::none(alloc),
            run: Run::None,
            headings: Vec::new(alloc),
        }
    }

    /// Whether titles are allowed in it.
    pub fn titles(&self) -> bool
        ensures { result ≡ self.now.depth == 0 }
    {
        self.depth == 0
    }

    /// Goes to a later line: past the next one at least.
    pub fn go_to(&mut self, end: usize)
        requires { self.old.at < 2 ^ 64 - 1 }
        ensures later { self.old.at < self.new.at }
        ensures within { (n : ℕ) → self.old.at < n → end ≤ n → self.new.at ≤ n }
        ensures there { self.old.at < end → self.new.at ≡ end }
        ensures moved { spec.IsMoved self.old self.new }
    {
        self.at = end.max(self.at + 1);
    }

    /// Has this part of its lines read as a block inside, for what waits for it, and goes on at a later line.
    pub fn open(&mut self, to: usize, first: Part, waits: Waits) -> Step
        requires { self.old.at < to }
        ensures step { result ≡ Open waits first None }
        ensures at { self.new.at ≡ to }
        ensures moved { spec.IsMoved self.old self.new }
    {
        self.at = to;
        Step::Open {
            waits,
            first,
            second: None,
        }
    }

    /// Adds a new node after the last. It is marked by a pass over it, the only one.
    pub fn push(&mut self, node: Node) -> Result<()>
        ensures at { self.new.at ≡ self.old.at }
        ensures more { spec.Gives (λ _. spec.HasMore self.old self.new (node ∷ [])) result }
    {
        Ok(self.nodes.push_new(node)?)
    }

    /// Puts a node after the last.
    pub fn push_marked(&mut self, node: Marked) -> Result<()>
        ensures at { self.new.at ≡ self.old.at }
        ensures more { spec.Gives (λ _. spec.HasMore self.old self.new (node ∷ [])) result }
    {
        Ok(self.nodes.push(node)?)
    }

    /// Adds more new nodes after the last.
    pub fn append(&mut self, more: Vec<Node>) -> Result<()>
        ensures at { self.new.at ≡ self.old.at }
        ensures more { spec.Gives (λ _. spec.HasMore self.old self.new more.items) result }
    {
        Ok(self.nodes.append_new(more)?)
    }

    /// Puts more nodes after the last.
    pub fn append_marked(&mut self, more: MarkedNodes) -> Result<()>
        ensures at { self.new.at ≡ self.old.at }
        ensures more { spec.Gives (λ _. spec.HasMore self.old self.new more) result }
    {
        Ok(self.nodes.append(more)?)
    }

    /// Puts a title after the last node.
    pub fn push_heading(&mut self, alloc: Global, mut heading: Heading) -> Result<()>
        requires { self.old.depth ≡ 0 }
        ensures at { self.new.at ≡ self.old.at }
        ensures title { spec.Gives (λ _. spec.HasTitle self.old self.new heading) result }
    {
        heading.nodes = mem::replace(&mut self.nodes, MarkedNodes::none(alloc));
        self.headings.push(heading)?;
        Ok(())
    }

    /// Ends the open run before the next line, with the message on an end without a blank line.
    pub fn close(&mut self, view: &View<'_>, pass: &mut Pass) -> Result<()>
        ensures at { self.new.at ≡ self.old.at }
        ensures low { capped pass.old.looks ≤ pass.new.looks }
        ensures run { pass.new.looks ≤ pass.old.looks + run_looks self.old.run }
        ensures closed { let levels = suc deepest - self.old.depth in
            let closed = closed_run levels (block_of view.now) (open_run_of self.old.run) pass.old.numbers in
            spec.Closes closed self.old self.new pass.new.numbers no_run result }
        ensures looks { pass.new.looks ≤ pass.old.looks + 1 }
    {
        if matches!(self.run, Run::None) {
            return Ok(());
        }
        let run = mem::replace(&mut self.run, Run::None);
        let ending = run.ending();
        run.put(&mut self.nodes, self.depth, pass)?;
        match ending {
            Some((end, text)) => self.warn(view, end, text, pass),
            None => Ok(()),
        }
    }

    /// Announces an item that ends at `end`: it joins the list that is open, which goes on as `kind`.
    pub fn join(&mut self, kind: ListKind, end: usize)
        ensures at { self.new.at ≡ self.old.at }
        ensures run { spec.HasRun self.old self.new (spec.joined_at (joining_in kind) end (open_run_of self.old.run)) }
    {
        if let Run::List(open) = &mut self.run {
            open.kind = kind;
            open.end = end;
        }
    }

    /// Begins a list.
    pub fn begin(&mut self, alloc: Global, kind: ListKind, list: Node, end: usize) -> Result<()>
        ensures at { self.new.at ≡ self.old.at }
        ensures run { spec.Gives (λ _. spec.HasRun self.old self.new (spec.begun_at (joining_in kind) end list)) result }
    {
        let open = OpenList {
            kind,
            end,
            before: Vec::new(alloc),
            list,
            items: MarkedNodes::none(alloc),
            messages_after: Vec::new(alloc),
        };
        self.run = Run::List(Box::new(alloc, open)?);
        Ok(())
    }

    /// Puts an item into the open list; without one it is a node of its own.
    pub fn push_item(&mut self, item: Marked) -> Result<()>
        ensures at { self.new.at ≡ self.old.at }
        ensures item { spec.Gives (λ _. spec.HasItem self.old self.new item) result }
    {
        match &mut self.run {
            Run::List(open) => Ok(open.items.push(item)?),
            _ => Ok(self.nodes.push(item)?),
        }
    }

    /// Puts a warning after the last node where the line at place `end`, after a construct, isn't blank.
    pub fn warn(&mut self, view: &View<'_>, end: usize, text: &str, pass: &mut Pass) -> Result<()>
        ensures at { self.new.at ≡ self.old.at }
        ensures more { spec.Gives (λ _. spec.HasMore self.old self.new (warned text.now (drop end (block_of view.now)))) result }
        ensures numbers { pass.new.numbers ≡ pass.old.numbers }
        ensures low { capped pass.old.looks ≤ pass.new.looks }
        ensures looks { pass.new.looks ≤ pass.old.looks + 1 }
    {
        if is_blank(text_at(view, end, &mut pass.looks)) {
            return Ok(());
        }
        let line = number_at(view, end);
        self.push(message(pass.alloc, Level::Warning, line, text, None)?)
    }
}
