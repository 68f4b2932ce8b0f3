//! The elements that references join, and what becomes of them.
ghost use Rattle.std.specs.Prelude.{IfOk, ◌≡◌, ◌+◌, [], length, slice_get, MatchOption, None, Some};
ghost use Rattle.rst_tree.specs.declared.node.Node.TheVariants.{Text as Words};
ghost use Rattle.rst_transform_references.specs.declared.links.Change.TheVariants.{Stays};
ghost use Rattle.rst_transform_references.specs.Failing.{fails};
ghost use Rattle.rst_transform_references.specs.Footnotes.{new_text};
ghost use Rattle.rst_transform_references.specs.Links.{change_at, linked_among, links_of, node_at, nodes_now, puts, TakesLinked};
ghost use Rattle.rst_transform_references.specs.Resolving.{with_backref};
ghost use Rattle.rst_transform_work.specs.Known.{Makes};

use crate::leads::Lead;
use rst_transform_work::{Context, Document, ProblematicAttrs, put_at};
use rst_tree::{Children, Node, Reader, Result, Text, Texts, read_elements};
use rst_tree_index::is_linked_tag;
use std::alloc::Global;
use std::marker::Model;
use std::mem;

/// What becomes of a linked element.
#[derive(Drop)]
pub enum Change {
    /// It stays. In the end it leads there, and has this text in place of its content, if there are any. What gets a text,
    /// a label or a reference to a footnote, contains no linked element.
    Stays {
        lead: Option<Lead>,
        text: Option<Text>,
    },
    /// It is a footnote or a citation, and has these names and lists these references to it, if there are some.
    Lists {
        names: Texts,
        backrefs: Texts,
    },
    /// It has become a problematic with these attributes. So many linked elements are inside it.
    Failed {
        attrs: ProblematicAttrs,
        inside: usize,
    },
}

/// The linked elements that were read.
#[derive(Drop)]
struct LinkedReader<'a> {
    list: Vec<&'a Node>,
}

impl<'a> Reader<'a> for LinkedReader<'a> {
    ghost takes = { TakesLinked };

    // It is called for each element of the document.
    #[inline(always)]
    fn read(
        &mut self,
        _alloc: Global,
        element: &'a Node,
        level: Option<usize>,
    ) -> Result<Option<usize>> {
        if let Node::Element { tag, .. } = element {
            if is_linked_tag(*tag) {
                self.list.push(element)?;
            }
        }
        Ok(level)
    }
}

/// The linked elements among nodes and in them, in the order of the document.
fn linked_among<'a>(alloc: Global, nodes: &'a Children) -> Result<Vec<&'a Node>>
    ensures { IfOk result (λ list. nodes_now list.items ≡ linked_among nodes.now) }
{
    let mut linked = LinkedReader {
        list: Vec::new(alloc),
    };
    read_elements(alloc, nodes, None, &mut linked)?;
    Ok(linked.list)
}

/// The linked elements of a document, each at its place, and what becomes of them.
#[derive(Drop)]
pub struct Links<'a> {
    /// An empty text, which takes the places of those that fail and of those inside them.
    nothing: &'a Node,
    linked: Vec<&'a Node>,
    changes: Vec<Change>,
}

impl<'a> Model for Links<'a> {
    ghost use Rattle.std.specs.Prelude.{◌≡◌, []};
    ghost use Rattle.rst_tree.specs.declared.node.Node.TheVariants.{Text as Words};
    ghost use Rattle.rst_transform_references.specs.Links.{nodes_now};
    ghost use Rattle.rst_transform_references.specs.Table.{Links};

    ghost Value = { Links };

    ghost use Rattle.std.specs.Coded.{codes};
    ghost use Rattle.rst_tree.specs.contracts.node.Node as node;
    ghost use Rattle.rst_transform_references.specs.contracts.links.Change as row;

    ghost coded = { Prim.hlevel (codes, node.the_row.coded, row.the_row.coded) };

    ghost view = { λ s. record { linked = nodes_now s.linked.items; changes = s.changes.items } };

    ghost invariant = { λ s. s.nothing.now ≡ Words [] };
}

impl<'a> Links<'a> {
    /// Those of a document, which stay as they are at first.
    pub fn of(alloc: Global, document: &'a Document, nothing: &'a Node) -> Result<Links<'a>>
        requires { nothing.now ≡ Words [] }
        ensures { IfOk result (λ links. links ≡ links_of document.now) }
    {
        let linked = linked_among(alloc, &document.children)?;
        let mut changes = Vec::with_capacity(alloc, linked.len())?;
        for _ in 0..linked.len() {
            changes.push_reserved(Change::Stays {
                lead: None,
                text: None,
            });
        }
        Ok(Links {
            nothing,
            linked,
            changes,
        })
    }

    /// How many there are.
    #[inline(always)]
    pub fn len(&self) -> usize
        ensures { result ≡ length self.now.linked }
    {
        self.linked.len()
    }

    /// The element at a place, or an empty text if that has failed or is inside one that has.
    #[inline(always)]
    pub fn node(&self, place: usize) -> &'a Node
        ensures { result.now ≡ node_at place self.now }
    {
        match self.linked.get(place) {
            Some(node) => node,
            None => self.nothing,
        }
    }

    /// What becomes of the element at a place.
    pub fn change(&self, place: usize) -> Option<&Change>
        ensures { MatchOption result (slice_get self.now.changes place ≡ None) (λ change. slice_get self.now.changes place ≡ Some change.now) }
    {
        self.changes.get(place)
    }

    /// The text that the element after the one at a place gets.
    pub fn text_after(&self, place: usize) -> Option<&Text>
        ensures { let text = new_text (change_at (place + 1) self.now) in MatchOption result (text ≡ None) (λ found. text ≡ Some found.now) }
    {
        if place >= self.changes.len() {
            return None;
        }
        match self.changes.get(place + 1) {
            Some(Change::Stays { text, .. }) => text.as_ref(),
            _ => None,
        }
    }

    /// Lets this become of the element at a place.
    #[inline(always)]
    pub fn put(&mut self, place: usize, change: Change)
        ensures { self.new ≡ puts place change self.old }
    {
        if place >= self.changes.len() {
            return;
        }
        // Mostly nothing became of it before: then there is nothing to free.
        if let Change::Stays {
            lead: None,
            text: None,
        } = &self.changes[place]
        {
            mem::forget(mem::replace(&mut self.changes[place], change));
        } else {
            self.changes[place] = change;
        }
    }

    /// Lets the element after the one at a place get this text.
    #[tactic(auto, using(std::proofs::lemmas::List::set_past))]
    pub fn show_after(&mut self, place: usize, text: Text)
        ensures { self.new ≡ puts (place + 1) (Stays None (Some text)) self.old }
    {
        if place < self.changes.len() {
            let (lead, text) = (None, Some(text));
            put_at(&mut self.changes, place + 1, Change::Stays { lead, text });
        }
    }

    /// Lets the footnote or citation at a place list one more reference to it.
    pub fn list(&mut self, alloc: Global, place: usize, id: Text) -> Result<()>
        ensures { IfOk result (λ _. self.new ≡ puts place (with_backref id (change_at place self.old)) self.old) }
    {
        if place < self.changes.len() {
            add_backref(alloc, &mut self.changes[place], id)?;
        }
        Ok(())
    }

    /// What became of all.
    pub fn into_changes(self) -> Vec<Change>
        ensures { result.items ≡ self.entry.changes }
    {
        self.changes
    }

    /// Lets the element at a place become a problematic of a message, if it is still there. Those inside it are gone with it.
    pub fn fail(&mut self, context: &mut Context, message: usize, place: usize) -> Result<()>
        ensures { IfOk result (λ _. Makes (fails message place self.old) context.old context.new self.new) }
    {
        let Node::Element { children, .. } = self.node(place) else {
            return Ok(());
        };
        let attrs = context.next_problematic(message)?;
        let inside = linked_among(context.alloc, children)?.len();
        for offset in 0..inside + 1 {
            put_at(&mut self.linked, place + offset, self.nothing);
        }
        put_at(&mut self.changes, place, Change::Failed { attrs, inside });
        Ok(())
    }
}

/// Adds the id of a reference to those that a footnote or a citation lists.
fn add_backref(alloc: Global, change: &mut Change, id: Text) -> Result<()>
    ensures { IfOk result (λ _. change.new ≡ with_backref id change.old) }
{
    if let Change::Lists { backrefs, .. } = change {
        return backrefs.push(id);
    }
    *change = Change::Lists {
        names: Texts::new(alloc),
        backrefs: Texts::lone(alloc, id),
    };
    Ok(())
}
