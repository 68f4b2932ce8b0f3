//! What is printed of a document.
ghost use Rattle.std.specs.Prelude.{◌≡◌, true, filter, IfOk};
ghost use Rattle.rst_tree.specs.Nodes.{forest_of, nodes_of};
ghost use Rattle.rst_transform_messages.specs.Filtered.{filtered, is_unexplained, with_filtered};
ghost use Rattle.rst_transform_messages.specs.Messages.{is_number_marked};
ghost use Rattle.rst_transform_messages.specs.Reported.{may_stay, are_all_reported_in};
ghost use Rattle.rst_transform_work.specs.States.{document_node};

use crate::messages::{level_number, reaches};
use rst_settings::Threshold;
use rst_transform_work::Document;
use rst_tree::{Children, Key, Node, Result, Tag};
use std::alloc::Global;
use std::mem;

/// Takes the messages below the report level out of a document, and lets each problematic whose message is gone become its text
/// (Configuration, `report_level`). `reported` has for each message's number whether the message stays.
///
/// Before, where WARNINGs aren't printed:
///
///     <paragraph>
///         <problematic message="0">
///             *
///         a
///     <system_message level="2" message="0">
///
/// After:
///
///     <paragraph>
///         *
///         a
pub fn filter(
    alloc: Global,
    mut document: Document,
    report: Threshold,
    reported: &[bool],
) -> Result<Document>
    ensures document { IfOk result (λ done. done ≡ with_filtered report (is_number_marked reported.now) document) }
    ensures reported { IfOk result (λ done. are_all_reported_in report (document_node done) ≡ true) }
{
    filter_in(alloc, &mut document.children, report, reported)?;
    Ok(document)
}

/// Whether a node is a problematic whose message isn't printed; where it has no number, there is none.
fn is_unexplained(node: &Node, reported: &[bool]) -> bool
    ensures { result ≡ is_unexplained (is_number_marked reported.now) node.now }
{
    match node {
        Node::Element {
            tag: Tag::Problematic,
            attrs,
            ..
        } => match attrs.number(Key::Message) {
            Some(number) => !matches!(reported.get(number as usize), Some(true)),
            None => true,
        },
        _ => false,
    }
}

/// Takes the messages below the report level out of a list.
#[inline(never)]
fn take_out_low(alloc: Global, nodes: &mut Children, report: Threshold)
    ensures { nodes.new ≡ forest_of (filter (may_stay report) (nodes_of nodes.old)) }
{
    let mut list = mem::replace(nodes, Children::new(alloc)).into_list();
    list.retain(|node| may_stay(node, report));
    *nodes = Children::of(list);
}

/// Whether a node isn't a message below the report level.
fn may_stay(node: &Node, report: Threshold) -> bool
    ensures { result ≡ may_stay report node.now }
{
    match node {
        Node::Element { tag, attrs, .. } => {
            !matches!(tag, Tag::SystemMessage) || reaches(level_number(attrs), report)
        }
        Node::Text(_) => true,
    }
}

/// Takes what isn't printed out of nodes.
fn filter_in(
    alloc: Global,
    nodes: &mut Children,
    report: Threshold,
    reported: &[bool],
) -> Result<()>
    ensures { IfOk result (λ _. nodes.new ≡ filtered report (is_number_marked reported.now) nodes.old) }
{
    let mut leaves = false;
    for i in 0..nodes.len() {
        let node = nodes.get_mut(i);
        if !may_stay(node, report) {
            // It is taken out with all that do, after the last.
            leaves = true;
            continue;
        }
        if is_unexplained(node, reported) {
            let text = node.text_of(alloc)?;
            *node = Node::Text(text);
            continue;
        }
        match node {
            Node::Text(_) => continue,
            Node::Element { children, .. } => {
                if children.are_plain() {
                    continue;
                }
                filter_in(alloc, children, report, reported)?;
            }
        }
    }
    if leaves {
        take_out_low(alloc, nodes, report);
    }
    Ok(())
}
