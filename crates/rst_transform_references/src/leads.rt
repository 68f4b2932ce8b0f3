//! Where elements and names lead.
ghost use Rattle.std.specs.Prelude.{IfOk, ◌≡◌};
ghost use Rattle.rst_tree.specs.declared.attrs.Value.TheVariants.{Text as Words};
ghost use Rattle.rst_tree.specs.Attributes.{attr};
ghost use Rattle.rst_transform_references.specs.Leads.{is_target_node, lead_at, lead_to_id, name_lead};

use crate::links::{Change, Links};
use rst_transform_names::NameEntry;
use rst_transform_work::{first_of_attribute, text_of_attribute};
use rst_tree::{Key, Node, Result, Tag, Text};
use std::alloc::Global;
use std::marker::Model;

/// Where something leads: an attribute that is a text, as contracts see it.
#[derive(Drop)]
pub struct Lead {
    pub key: Key,
    pub text: Text,
}

impl Model for Lead {
    ghost use Rattle.rst_tree.specs.declared.attrs.Attr.{Attr};
    ghost use Rattle.rst_tree.specs.declared.attrs.Value.TheVariants.{Text as Words};
    ghost use Rattle.rst_tree.specs.Attributes.{attr};

    ghost Value = { Attr };

    ghost view = { λ l. attr l.key (Words l.text) };
}

impl Lead {
    /// By an attribute of this name and text.
    #[inline(always)]
    fn by(alloc: Global, key: Key, text: &str) -> Result<Lead>
        ensures { IfOk result (λ lead. lead ≡ attr key (Words text.now)) }
    {
        let text = Text::from_str(alloc, text)?;
        Ok(Lead { key, text })
    }

    /// An equal one.
    pub fn copy(&self) -> Result<Lead>
        ensures { IfOk result (λ lead. lead ≡ self.now) }
    {
        let text = self.text.copy()?;
        Ok(Lead {
            key: self.key,
            text,
        })
    }
}

/// To the first id of an element.
pub fn lead_to_id(alloc: Global, node: &Node) -> Result<Option<Lead>>
    ensures { IfOk result (λ lead. lead ≡ lead_to_id node.now) }
{
    match first_of_attribute(node, Key::Ids) {
        Some(id) => Ok(Some(Lead::by(alloc, Key::Refid, id)?)),
        None => Ok(None),
    }
}

/// Where the element at a place leads, as an attribute for what refers to it: where a transform found, or else its `refuri` or its
/// `refid`.
#[inline(always)]
pub fn lead_at(alloc: Global, links: &Links<'_>, place: usize) -> Result<Option<Lead>>
    ensures { IfOk result (λ lead. lead ≡ lead_at place links.now) }
{
    if let Some(
        Change::Stays {
            lead: Some(lead),
            ..
        },
    ) = links.change(place)
    {
        return Ok(Some(lead.copy()?));
    }
    let node = links.node(place);
    if let Some(uri) = text_of_attribute(node, Key::Refuri) {
        return Ok(Some(Lead::by(alloc, Key::Refuri, uri)?));
    }
    match text_of_attribute(node, Key::Refid) {
        Some(id) => Ok(Some(Lead::by(alloc, Key::Refid, id)?)),
        None => Ok(None),
    }
}

/// Whether a node is a target.
pub fn is_target(node: &Node) -> bool
    ensures { result ≡ is_target_node node.now }
{
    match node {
        Node::Element { tag, .. } => matches!(tag, Tag::Target),
        Node::Text(_) => false,
    }
}

/// Where a name leads by which no indirect target is meant: to where its holder leads if that is a target, and else to the
/// id of the element that brought the name. A target with a URI leads there though it has left the document.
#[inline(always)]
pub fn name_lead(
    alloc: Global,
    links: &Links<'_>,
    holder: Option<usize>,
    known: &NameEntry,
) -> Result<Lead>
    ensures { IfOk result (λ lead. lead ≡ name_lead holder known.now links.now) }
{
    if let Some(place) = holder {
        if is_target(links.node(place)) {
            if let Some(lead) = lead_at(alloc, links, place)? {
                return Ok(lead);
            }
        }
    }
    match &known.uri {
        Some(uri) => Lead::by(alloc, Key::Refuri, uri.as_str()),
        None => Lead::by(alloc, Key::Refid, known.id.as_str()),
    }
}
