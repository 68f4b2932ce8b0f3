//! The last section of a document, with the messages of the transforms.
ghost use Rattle.std.specs.Prelude.{◌≡◌, ◌∷◌, ◌++◌, [], map, IfOk};
ghost use Rattle.std.specs.List.{list_any};
ghost use Rattle.rst_tree.specs.Nodes.{forest_of, nodes_of};
ghost use Rattle.rst_transform_work.specs.Known.{Makes};
ghost use Rattle.rst_transform_structure.specs.LastSection.{ids_moved, is_reported, own_nodes, messages_section, with_last_section};

use rst_settings::Threshold;
use rst_transform_work::{Context, Document, Report, element};
use rst_tree::{Attrs, Children, Key, Node, Result, Tag, Text, Texts, Value};
use std::alloc::Global;

/// Puts a last section with the transforms' own messages after the document's nodes, if one of them is at or above the report
/// level (Document Tree, 'system_message').
///
///     <section classes="system-messages">
///         <title>
///             Docutils System Messages
///         <system_message ..>
pub fn last_section(
    mut document: Document,
    context: &mut Context,
    report: Threshold,
) -> Result<Document>
    ensures { IfOk result (Makes (with_last_section report document) context.old context.new) }
{
    if !is_any_reported(context.reports.as_slice(), report) {
        return Ok(document);
    }
    let section = section(context.alloc, &mut context.reports)?;
    document.children.push(section)?;
    Ok(document)
}

/// Whether one of some messages is in the last section and is at or above the report level.
fn is_any_reported(reports: &[Report], threshold: Threshold) -> bool
    ensures { result ≡ list_any (is_reported threshold) reports.now }
{
    reports.iter().any(|report| report.own && threshold.is_reached(report.level.number()))
}

/// The section with its title and the messages in it.
fn section(alloc: Global, reports: &mut Vec<Report>) -> Result<Node>
    ensures section { IfOk result (λ section. section ≡ messages_section reports.old.items) }
    ensures reports { IfOk result (λ _. reports.new.items ≡ map ids_moved reports.old.items) }
{
    let classes = Texts::lone(alloc, Text::from_str(alloc, "system-messages")?);
    let attrs = Attrs::lone(alloc, Key::Classes, Value::List(classes))?;
    let mut children = Children::with_room(alloc, reports.len().saturating_add(1))?;
    let title = Children::lone(alloc, Node::text(alloc, "Docutils System Messages")?)?;
    children.push(element(Tag::Title, Attrs::new(alloc), title, 0))?;
    for i in 0..reports.len() {
        add_own(alloc, &mut reports[i], &mut children)?;
    }
    Ok(element(Tag::Section, attrs, children, 0))
}

/// Adds a message, if it is in the section, and hands over its ids.
#[tactic(auto, using(crate::proofs::LastNodes::none_added))]
fn add_own(alloc: Global, report: &mut Report, nodes: &mut Children) -> Result<()>
    ensures nodes { IfOk result (λ _. nodes.new ≡ forest_of (nodes_of nodes.old ++ own_nodes (report.old ∷ []))) }
    ensures report { IfOk result (λ _. report.new ≡ ids_moved report.old) }
{
    if !report.own {
        return Ok(());
    }
    nodes.push(report.node(alloc)?)
}
