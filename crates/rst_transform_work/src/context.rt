//! What is known beside the document between two transforms.
ghost use Rattle.std.specs.Prelude.{◌≡◌, ◌+◌, false, vec_len, IfOk};
ghost use Rattle.rst_transform_work.specs.Known.{Makes};
ghost use Rattle.rst_transform_work.specs.Problematics as spec;
ghost use Rattle.rst_transform_work.specs.Reports.{report_in, report_node, IsReported, KeepsRest};

use crate::problematics::ProblematicAttrs;
use crate::report::Report;
use crate::texts::element;
use rst_transform_names::{Ids, Names};
use rst_tree::{Attrs, Children, Level, Node, Result, Tag, Text, Texts};
use std::alloc::Global;

/// What is known beside the document between two transforms: what registration left, and the messages of the transforms so far.
#[derive(Drop)]
pub struct Context {
    /// Where what the transforms make is kept.
    pub alloc: Global,
    /// The ids that are taken.
    pub ids: Ids,
    /// The names and their holders.
    pub names: Names,
    /// The messages of the transforms, in order.
    pub reports: Vec<Report>,
    /// The number of the first report: those of the messages that the parser gave end below.
    pub first_number: u64,
    /// How many elements were registered.
    pub serials: u64,
}

impl Context {
    /// The next message, which has no problematics yet.
    fn next_report(&self, level: Level, line: usize, text: Text, own: bool) -> Report
        ensures { result ≡ report_in self.now level line text own }
    {
        Report {
            level,
            line,
            text,
            // The sum can't saturate: memory has no room for that many messages.
            number: self.first_number.saturating_add(self.reports.len() as u64),
            id: None,
            backrefs: Texts::new(self.alloc),
            own,
        }
    }

    /// Adds a message, and gives its place among the reports. It is in the last section if it is `own`, and else where
    /// the caller puts its `node`.
    pub fn report(&mut self, level: Level, line: usize, text: Text, own: bool) -> Result<usize>
        ensures place { IfOk result (λ place. (place ≡ vec_len self.old.reports) × (vec_len self.new.reports ≡ place + 1)) }
        ensures reports { IfOk result (λ _. IsReported (report_in self.old level line text own) self.old self.new) }
        ensures rest { IfOk result (λ _. KeepsRest self.old self.new) }
    {
        let place = self.reports.len();
        let report = self.next_report(level, line, text, own);
        self.reports.push(report)?;
        Ok(place)
    }

    /// Adds a message that is in the tree itself, and returns its node, for the caller to put into its place.
    pub fn report_in_place(&mut self, level: Level, line: usize, text: Text) -> Result<Node>
        ensures node { IfOk result (λ node. node ≡ report_node (report_in self.old level line text false)) }
        ensures reports { IfOk result (λ _. IsReported (report_in self.old level line text false) self.old self.new) }
        ensures rest { IfOk result (λ _. KeepsRest self.old self.new) }
    {
        let mut report = self.next_report(level, line, text, false);
        let node = report.node(self.alloc)?;
        self.reports.push(report)?;
        Ok(node)
    }

    /// The problematic with the source text of a reference that is at fault, for the message at a place among the
    /// reports.
    pub fn problematic(&mut self, report: usize, source: Text, line: usize) -> Result<Node>
        ensures { IfOk result (Makes (spec.reported_problematic report source line) self.old self.new) }
    {
        let mut attrs = Attrs::new(self.alloc);
        self.next_problematic(report)?.tell(self.alloc, &mut attrs)?;
        let children = Children::lone(self.alloc, Node::Text(source))?;
        Ok(element(Tag::Problematic, attrs, children, line))
    }

    /// The attributes of the next problematic, for the message at a place among the reports. It gets its id before the message
    /// gets one. A place after the last report gives a problematic without message.
    pub fn next_problematic(&mut self, report: usize) -> Result<ProblematicAttrs>
        ensures { IfOk result (Makes (spec.problematic report) self.old self.new) }
    {
        let id = self.ids.give_kind(self.alloc, Tag::Problematic)?;
        if report >= self.reports.len() {
            return Ok(ProblematicAttrs { id, message: None });
        }
        let back = id.copy()?;
        let report = &mut self.reports[report];
        let own = report.refer_back(self.alloc, &mut self.ids, back)?;
        let message = Some((report.number, own));
        Ok(ProblematicAttrs { id, message })
    }
}
