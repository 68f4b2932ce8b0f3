//! Sections, made of the nodes and the titles of a document (Markup Specification, 'Sections').
ghost use Rattle.std.specs.Prelude.{◌≡◌, ◌+◌, ◌≤◌, List, ◌∷◌, length, IfOk};
ghost use Rattle.rst_block_nodes.specs.Sections.{Item, titled, Member, document_of, level_of, title_of, items_of};
ghost use Rattle.rst_block_nodes.specs.Texts.{section_node};
ghost use Rattle.rst_block_nodes.specs.OpenSections.{document_with_items, closed_with, StopsAt};

use super::contents::completed;
use super::heading::{Heading, Style};
use super::messages::message;
use super::nodes::element_of;
use super::texted::counting;
use super::values::name_value;
use rst_tree::{Key, Level as Gravity, Node, Result, Tag};
use rst_tree_index::{Marked, MarkedNodes};
use std::alloc::Global;
use std::mem;

/// A section that is open, with what is in it so far; the outermost is the document.
#[derive(Drop)]
struct OpenSection {
    element: Node,
    nodes: MarkedNodes,
}

/// The document with its sections: the section of a title holds what comes up to the next title of its level or a higher
/// one.
///
/// The only refusal is [`AllocError`].
pub fn document(alloc: Global, nodes: MarkedNodes, headings: Vec<Heading>) -> Result<Marked>
    ensures { IfOk result (λ root. root ≡ document_of (items_of headings.items nodes)) }
{
    let mut sections = Sections {
        outer: Vec::new(alloc),
        current: OpenSection {
            element: Node::element(alloc, Tag::Document, 0),
            nodes: MarkedNodes::none(alloc),
        },
        styles: Vec::new(alloc),
    };
    for mut heading in headings {
        let before = mem::replace(&mut heading.nodes, MarkedNodes::none(alloc));
        sections.current.nodes.append(before)?;
        sections.title(alloc, heading)?;
    }
    sections.current.nodes.append(nodes)?;
    sections.end(alloc, 1)?;
    let OpenSection { element, nodes } = sections.current;
    completed(alloc, element, nodes)
}

/// The sections that are open, and the styles of titles in the order of their first use.
#[derive(Drop)]
struct Sections {
    /// The sections round the innermost one, the document first.
    outer: Vec<OpenSection>,
    current: OpenSection,
    styles: Vec<Style>,
}

impl Sections {
    /// Meets a title: begins a new section, or puts the message on a title whose level is inconsistent.
    fn title(&mut self, alloc: Global, heading: Heading) -> Result<()>
        ensures { IfOk result (λ _. (items : List Item) → document_with_items self.new items ≡ document_with_items self.old (titled (title_of heading) ∷ items)) }
    {
        let level = level_of(heading.style, self.styles.as_slice());
        // The level of the innermost section is the number of those round it.
        if level > self.outer.len() + 1 {
            let text = "Title level inconsistent:";
            let source = Some(heading.source.as_str());
            let node = message(alloc, Gravity::Severe, heading.line, text, source)?;
            self.current.nodes.push(Marked::of(alloc, node)?)?;
            return Ok(());
        }
        if level > self.styles.len() {
            self.styles.push(heading.style)?;
        }
        self.end(alloc, level)?;
        let Heading {
            title,
            warning,
            line,
            ..
        } = heading;
        let mut nodes = MarkedNodes::of(alloc, title.notes)?;
        if let Some(warning) = warning {
            nodes.push_new(warning)?;
        }
        let element = section(alloc, title.element, nodes.len(), line)?;
        let inner = OpenSection { element, nodes };
        self.outer.push(mem::replace(&mut self.current, inner))?;
        Ok(())
    }

    /// Ends those of a level or a deeper one: each is put into the one round it.
    fn end(&mut self, alloc: Global, level: usize) -> Result<()>
        requires { 1 ≤ level }
        ensures closed { IfOk result (λ _. (ms : List Member) → StopsAt level ms → closed_with self.new ms ≡ closed_with self.old ms) }
        ensures few { IfOk result (λ _. length self.new.outer.items + 1 ≤ level) }
        ensures enough { IfOk result (λ _. level ≤ length self.old.outer.items + 1 → level ≤ length self.new.outer.items + 1) }
        ensures styles { IfOk result (λ _. self.new.styles ≡ self.old.styles) }
    {
        while level <= self.outer.len() {
            if let Some(round) = self.outer.pop() {
                let OpenSection { element, nodes } = mem::replace(&mut self.current, round);
                self.current.nodes.push(completed(alloc, element, nodes)?)?;
            }
        }
        Ok(())
    }
}

/// The level of a style, from 1: its place among those in use, or one more than there are.
fn level_of(style: Style, styles: &[Style]) -> usize
    ensures { result ≡ level_of style styles.now }
{
    for place in 0..styles.len() {
        if styles[place].is(style) {
            return place + 1;
        }
    }
    styles.len() + 1
}

/// A section that begins with its title, and is named by the title's text; this many messages are to come between the title
/// and the section's content (Document Tree, 'section').
fn section(alloc: Global, title: Node, notes: usize, line: usize) -> Result<Node>
    ensures { IfOk result (λ node. node ≡ section_node title notes line) }
{
    let text = title.text_of(alloc)?;
    let mut attrs = counting(alloc, notes)?;
    attrs.set(Key::OwnName, name_value(alloc, text.as_str())?)?;
    let mut nodes = Vec::new(alloc);
    nodes.push(title)?;
    Ok(element_of(Tag::Section, attrs, nodes, line))
}
