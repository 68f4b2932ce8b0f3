//! The entries of a table of contents.
ghost use Rattle.std.specs.Prelude.{◌≡◌, ◌++◌, MatchOption, None, Some, IfOk};
ghost use Rattle.rst_tree.specs.Nodes.{forest_of};
ghost use Rattle.rst_transform_contents.specs.Entries.{back_of, backlinks_of, entries, entry, entry_attrs, item, led, levels_of, outline_parts, sublist, Gives};
ghost use Rattle.rst_transform_contents.specs.Entries as spec;

use rst_transform_names::Ids;
use rst_transform_work::{copies, element, put_at, text_or_empty};
use rst_tree::{Attrs, Children, Key, Node, Result, Tag, Text, Texts, Value, ValueRef};
use std::alloc::Global;

/// The most levels that a table has: there are no more styles of titles, so sections nest no deeper.
pub const MOST_LEVELS: usize = 64;

/// Where the titles of the sections in a table lead (Directives, 'Table of Contents', option `backlinks`).
#[derive(Drop)]
pub enum Backlinks {
    /// Each leads to its entry.
    Entry,
    /// All lead to the table, if it has an id.
    Top(Option<Text>),
    /// They aren't changed.
    Nowhere,
}

impl Backlinks {
    /// What the place of the entries asks for in a topic with these attributes.
    pub fn of(topic: &Attrs, place: &Attrs) -> Result<Backlinks>
        ensures { IfOk result (λ backlinks. backlinks ≡ backlinks_of topic.now place.now) }
    {
        match text_or_empty(place, Key::Backlinks) {
            "top" => Ok(Backlinks::Top(first_id(topic)?)),
            "none" => Ok(Backlinks::Nowhere),
            _ => Ok(Backlinks::Entry),
        }
    }

    /// Where the title of a section leads by its entry's id, if anywhere.
    fn back(&self, id: &Text) -> Result<Option<Text>>
        ensures { IfOk result (λ back. back ≡ back_of self.now id.now) }
    {
        match self {
            Backlinks::Entry => Ok(Some(id.copy()?)),
            Backlinks::Top(Some(top)) => Ok(Some(top.copy()?)),
            Backlinks::Top(None) | Backlinks::Nowhere => Ok(None),
        }
    }
}

/// A copy of the first id among attributes, if they have one.
fn first_id(attrs: &Attrs) -> Result<Option<Text>>
    ensures { IfOk result (λ id. id ≡ spec.first_id attrs.now) }
{
    match attrs.get(Key::Ids) {
        Some(ValueRef::List([id, ..])) => Ok(Some(id.copy()?)),
        _ => Ok(None),
    }
}

/// How many levels of sections a table shows, by the place of its entries.
pub fn levels_of(place: &Attrs) -> usize
    ensures { result ≡ levels_of place.now }
{
    match place.number(Key::Depth) {
        Some(depth) if depth < MOST_LEVELS as u64 => depth as usize,
        _ => MOST_LEVELS,
    }
}

/// The attributes of a section in an outline, the nodes of its title, and the sections in it.
pub fn outline_parts<'a>(section: &'a Node) -> Option<(&'a Attrs, &'a Children, &'a [Node])>
    ensures { MatchOption result (outline_parts section.now ≡ None) (λ parts. outline_parts section.now ≡ Some (parts.0.now, parts.1.now, forest_of parts.2.now)) }
{
    let Node::Element {
        attrs,
        children,
        ..
    } = section
    else {
        return None;
    };
    match children.as_slice().split_first() {
        Some((Node::Element { children, .. }, inner)) => Some((attrs, children, inner)),
        _ => None,
    }
}

/// What the tables made so far leave to the next one.
#[derive(Drop)]
pub struct Tables {
    /// Where what is made is kept.
    pub alloc: Global,
    /// The ids that are taken.
    pub ids: Ids,
    /// Where the title of each section leads, by the section's number, if a table said so.
    pub leads: Vec<Option<Text>>,
}

impl Tables {
    /// The entries of the sections in an outline, to a number of levels; one level is always there.
    pub fn entries(
        &mut self,
        outline: &[Node],
        levels: usize,
        backlinks: &Backlinks,
    ) -> Result<Vec<Node>>
        ensures { IfOk result (λ made. Gives (entries backlinks.now levels (forest_of outline.now)) self.old self.new made.items) }
    {
        let mut made = Vec::new(self.alloc);
        for section in outline {
            if let Some((attrs, title, inner)) = outline_parts(section) {
                let entry = self.entry(attrs, title, backlinks)?;
                let below = if levels > 1 {
                    self.entries(inner, levels - 1, backlinks)?
                } else {
                    Vec::new(self.alloc)
                };
                made.push(item(self.alloc, entry, below)?)?;
            }
        }
        Ok(made)
    }

    /// The entry of a section: a reference to it, with the next free id. Where the backlinks say so, the section's title leads back.
    fn entry(&mut self, attrs: &Attrs, title: &Children, backlinks: &Backlinks) -> Result<Node>
        ensures { IfOk result (λ made. Gives (entry backlinks.now attrs.now title.now) self.old self.new made) }
    {
        let id = self.ids.give_numbered(self.alloc, "toc-entry")?;
        let back = backlinks.back(&id)?;
        lead_back(&mut self.leads, attrs.number(Key::Serial), back);
        let own = entry_attrs(self.alloc, id, attrs)?;
        let nodes = copies(self.alloc, title)?;
        let reference = element(Tag::Reference, own, nodes, 0);
        let inside = Children::lone(self.alloc, reference)?;
        Ok(element(Tag::Paragraph, Attrs::new(self.alloc), inside, 0))
    }
}

/// Lets the title of the section with a number lead there, if both are there.
fn lead_back(leads: &mut Vec<Option<Text>>, serial: Option<u64>, back: Option<Text>)
    ensures { leads.new.items ≡ led back serial leads.old.items }
{
    if let (Some(serial), Some(back)) = (serial, back) {
        put_at(leads, serial as usize, Some(back));
    }
}

/// The attributes of the reference with an id to a section with these attributes.
fn entry_attrs(alloc: Global, id: Text, section: &Attrs) -> Result<Attrs>
    ensures { IfOk result (λ attrs. attrs ≡ entry_attrs id section.now) }
{
    let mut attrs = Attrs::new(alloc);
    attrs.set(Key::Ids, Value::List(Texts::lone(alloc, id)))?;
    if let Some(refid) = first_id(section)? {
        attrs.set(Key::Refid, Value::Text(refid))?;
    }
    Ok(attrs)
}

/// The item of an entry and of those below it.
fn item(alloc: Global, entry: Node, below: Vec<Node>) -> Result<Node>
    ensures { IfOk result (λ made. made ≡ item entry below.items) }
{
    let mut nodes = Vec::new(alloc);
    nodes.push(entry)?;
    add_list(alloc, below, &mut nodes)?;
    Ok(element(Tag::ListItem, Attrs::new(alloc), Children::of(nodes), 0))
}

/// Puts the list of these entries after nodes, if there are any.
pub fn add_list(alloc: Global, entries: Vec<Node>, nodes: &mut Vec<Node>) -> Result<()>
    ensures { IfOk result (λ _. nodes.new.items ≡ nodes.old.items ++ sublist entries.items) }
{
    if !entries.is_empty() {
        nodes.push(element(Tag::BulletList, Attrs::new(alloc), Children::of(entries), 0))?;
    }
    Ok(())
}
