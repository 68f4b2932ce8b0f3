//! The outline of a document: its sections without their bodies.
ghost use Rattle.std.specs.Prelude.{◌≡◌, IfOk};
ghost use Rattle.rst_transform_names.specs.NameMessages.{is_section};
ghost use Rattle.rst_transform_contents.specs.Outline.{heading, outline};

use crate::title::add_entry_nodes;
use rst_transform_work::element;
use rst_tree::{Attrs, Children, Node, Result, Tag};
use std::alloc::Global;

/// The sections among the nodes of the document or of a section, and those in them, to a number of levels. Each has a title of what an entry
/// has of its own, and then its sections.
pub fn outline(alloc: Global, nodes: &Children, levels: usize) -> Result<Vec<Node>>
    ensures { IfOk result (λ sections. sections.items ≡ outline levels nodes.now) }
{
    let mut sections = Vec::new(alloc);
    for node in nodes.as_slice() {
        if let Node::Element {
            tag,
            attrs,
            children,
            line,
        } = node
        {
            if is_section(*tag) && levels > 0 {
                let mut inside = Vec::new(alloc);
                inside.push(heading(alloc, children)?)?;
                inside.append(&mut outline(alloc, children, levels - 1)?)?;
                sections.push(element(*tag, attrs.copy(alloc)?, Children::of(inside), *line))?;
            }
        }
    }
    Ok(sections)
}

/// The title in the outline of a section with these nodes.
fn heading(alloc: Global, nodes: &Children) -> Result<Node>
    ensures { IfOk result (λ title. title ≡ heading nodes.now) }
{
    let mut made = Vec::new(alloc);
    if let Some(Node::Element { children, .. }) = nodes.get(0) {
        add_entry_nodes(alloc, children, &mut made)?;
    }
    Ok(element(Tag::Title, Attrs::new(alloc), Children::of(made), 0))
}

/// Whether an element of a kind is a section.
pub fn is_section(tag: Tag) -> bool
    ensures { result ≡ is_section tag }
{
    matches!(tag, Tag::Section)
}
