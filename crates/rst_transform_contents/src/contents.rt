//! Tables of contents.
ghost use Rattle.std.specs.Prelude.{◌≡◌, ◌++◌, replicate, MatchOption, None, Some, IfOk};
ghost use Rattle.rst_tree.specs.Nodes.{forest_of};
ghost use Rattle.rst_transform_work.specs.Known.{Makes};
ghost use Rattle.rst_transform_contents.specs.Contents.{first_inside, holds_table, is_topic, others, place_of, placed, with_contents, Becomes};
ghost use Rattle.rst_transform_contents.specs.Contents as spec;
ghost use Rattle.rst_transform_contents.specs.Entries.{Gives};

use crate::entries::{Backlinks, MOST_LEVELS, Tables, add_list, levels_of, outline_parts};
use crate::outline::{is_section, outline};
use crate::title::holds_reference;
use rst_transform_names::Ids;
use rst_transform_work::{Context, Document, element, item_at};
use rst_tree::{Attrs, Children, Key, Node, Result, Rewriter, Tag, Text, Value, rewrite_in};
use std::alloc::Global;
use std::collections::VecDeque;
use std::marker::Model;
use std::mem;

/// Makes tables of contents, in document order (Directives, 'Table of Contents').
///
/// Before:
///
///     <topic ids="contents">
///         <title>
///         <contents backlinks="entry">
///     <section ids="a">
///         <title>
///
/// After:
///
///     <topic ids="contents">
///         <title>
///         <bullet_list>
///             <list_item>
///                 <paragraph>
///                     <reference ids="toc-entry-1" refid="a">
///     <section ids="a">
///         <title refid="toc-entry-1">
///
/// A table without entries vanishes, and its names stay known.
///
/// The only refusal is [`AllocError`].
pub fn contents(mut document: Document, context: &mut Context) -> Result<Document>
    ensures { IfOk result (Makes (with_contents document) context.old context.new) }
{
    if !holds_table(&document.children) {
        return Ok(document);
    }
    let alloc = context.alloc;
    let sections = outline(alloc, &document.children, MOST_LEVELS)?;
    let mut tables = Tables {
        alloc,
        ids: mem::replace(&mut context.ids, Ids::new(alloc)),
        leads: no_leads(alloc, context.serials as usize)?,
    };
    let nodes = tables.placed(document.children, &sections, &sections)?;
    let Tables { ids, leads, .. } = tables;
    context.ids = ids;
    document.children = Children::of(nodes);
    let mut titles = Titles { leads, next: None };
    rewrite_in(alloc, &mut document.children, &mut titles)?;
    Ok(document)
}

/// Whether a table is among the nodes of the document or a section, or in its sections.
fn holds_table(nodes: &Children) -> bool
    ensures { result ≡ holds_table nodes.now }
{
    for node in nodes.as_slice() {
        if let Node::Element { tag, children, .. } = node {
            if is_section(*tag) {
                if holds_table(children) {
                    return true;
                }
            } else if is_topic(*tag) && place_of(children).is_some() {
                return true;
            }
        }
    }
    false
}

/// Whether an element of a kind is a topic.
fn is_topic(tag: Tag) -> bool
    ensures { result ≡ is_topic tag }
{
    matches!(tag, Tag::Topic)
}

/// The attributes of the place of the entries, if the nodes of a topic end with it.
fn place_of(nodes: &Children) -> Option<&Attrs>
    ensures { MatchOption result (place_of nodes.now ≡ None) (λ place. place_of nodes.now ≡ Some place.now) }
{
    match nodes.get(nodes.len().saturating_sub(1))? {
        Node::Element {
            tag: Tag::Contents,
            attrs,
            ..
        } => Some(attrs),
        _ => None,
    }
}

/// No lead for any section of this many elements.
fn no_leads(alloc: Global, count: usize) -> Result<Vec<Option<Text>>>
    ensures { IfOk result (λ leads. leads.items ≡ replicate count None) }
{
    let mut leads = Vec::with_capacity(alloc, count)?;
    for _ in 0..count {
        leads.push_reserved(None);
    }
    Ok(leads)
}

/// The sections in the first one of an outline, if there is one.
fn first_inside(sections: &[Node]) -> Option<&[Node]>
    ensures { MatchOption result (first_inside (forest_of sections.now) ≡ None) (λ inside. first_inside (forest_of sections.now) ≡ Some (forest_of inside.now)) }
{
    Some(outline_parts(sections.first()?)?.2)
}

/// The sections of an outline but the first.
fn others(sections: &[Node]) -> &[Node]
    ensures { forest_of result.now ≡ others (forest_of sections.now) }
{
    match sections.split_first() {
        Some((_, others)) => others,
        None => sections,
    }
}

impl Tables {
    /// The nodes of the document or of a section with their tables, by the outlines of the whole document and of these nodes.
    fn placed(&mut self, nodes: Children, root: &[Node], here: &[Node]) -> Result<Vec<Node>>
        ensures { IfOk result (λ made. Gives (placed (forest_of root.now) (forest_of here.now) (forest_of here.now) nodes) self.old self.new made.items) }
    {
        let mut made = Vec::with_capacity(self.alloc, nodes.len())?;
        let mut sections = here;
        let mut left = VecDeque::from_vec(nodes.into_list());
        while let Some(node) = left.pop_front() {
            match node {
                Node::Text(text) => made.push(Node::Text(text))?,
                Node::Element {
                    tag,
                    attrs,
                    children,
                    line,
                } => {
                    if is_section(tag) {
                        let inside = match first_inside(sections) {
                            Some(inner) => Children::of(self.placed(children, root, inner)?),
                            None => children,
                        };
                        made.push(element(tag, attrs, inside, line))?;
                        sections = others(sections);
                    } else if is_topic(tag) {
                        self.add_topic(attrs, children, line, root, here, &mut made)?;
                    } else {
                        made.push(element(tag, attrs, children, line))?;
                    }
                }
            }
        }
        Ok(made)
    }

    /// Puts a topic after nodes, with its entries if it is a table. One without entries vanishes.
    fn add_topic(
        &mut self,
        attrs: Attrs,
        children: Children,
        line: usize,
        root: &[Node],
        here: &[Node],
        made: &mut Vec<Node>,
    ) -> Result<()>
        ensures { IfOk result (λ _. Becomes (spec.topic attrs children line (forest_of root.now) (forest_of here.now)) self.old self.new made.old.items made.new.items) }
    {
        let Some(place) = place_of(&children) else {
            made.push(element(Tag::Topic, attrs, children, line))?;
            return Ok(());
        };
        let outline = if place.has(Key::Local) { here } else { root };
        let backlinks = Backlinks::of(&attrs, place)?;
        let entries = self.entries(outline, levels_of(place), &backlinks)?;
        if entries.is_empty() {
            return Ok(());
        }
        let mut nodes = children.into_list();
        nodes.pop();
        add_list(self.alloc, entries, &mut nodes)?;
        made.push(element(Tag::Topic, attrs, Children::of(nodes), line))?;
        Ok(())
    }
}

/// Lets the titles of sections lead where tables say.
#[derive(Drop)]
struct Titles {
    /// Where the title of each section leads, by the section's number.
    leads: Vec<Option<Text>>,
    /// Where the title of the section just met leads.
    next: Option<Text>,
}

impl Model for Titles {
    ghost use Rattle.rst_transform_contents.specs.Contents.{Leading};

    ghost Value = { Leading };

    ghost view = { λ t. record { leads = t.leads.items; next = t.next } };
}

impl Rewriter for Titles {
    ghost use Rattle.rst_transform_contents.specs.Contents.{after_element, with_lead};

    ghost entered = { after_element };

    ghost becomes = { with_lead };

    fn turn(&mut self, _alloc: Global, element: &mut Node) -> Result<bool> {
        let next = mem::replace(&mut self.next, None);
        let Node::Element {
            tag,
            attrs,
            children,
            ..
        } = element
        else {
            return Ok(false);
        };
        if is_section(*tag) {
            self.next = self.lead_of(attrs)?;
        } else if matches!(tag, Tag::Title) && !holds_reference(children) {
            if let Some(refid) = next {
                attrs.set(Key::Refid, Value::Text(refid))?;
            }
        }
        Ok(true)
    }
}

impl Titles {
    /// Where the title of a section with these attributes leads, if a table says so.
    fn lead_of(&self, attrs: &Attrs) -> Result<Option<Text>>
        ensures { IfOk result (λ lead. lead ≡ spec.lead_of self.now.leads attrs.now) }
    {
        let Some(serial) = attrs.number(Key::Serial) else {
            return Ok(None);
        };
        match item_at(&self.leads, serial as usize) {
            Some(refid) => Ok(Some(refid.copy()?)),
            None => Ok(None),
        }
    }
}
