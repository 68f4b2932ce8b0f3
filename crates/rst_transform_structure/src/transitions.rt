//! The places of transitions.
ghost use Rattle.std.specs.Prelude.{◌≡◌, ◌≤◌, ◌++◌, length, Some, IfOk};
ghost use Rattle.rst_transform_work.specs.Reports.{KeepsRest};
ghost use Rattle.rst_transform_work.specs.Known.{Makes};
ghost use Rattle.rst_tree_index.specs.Kinds.{is_transition};
ghost use Rattle.rst_transform_names.specs.NameMessages.{is_section};
ghost use Rattle.rst_transform_structure.specs.declared.transitions.TransitionFault.TheVariants.{AtBeginning};
ghost use Rattle.rst_transform_structure.specs.Transitions.{fault_after, transition_fault_text, is_one, keeps_place, transition_message, placed_in, placed_section, placed_transition, staying, with_transitions};

use rst_transform_work::{Context, Document, element, is_title};
use rst_tree::{Attrs, Children, Level, Node, Result, Tag, Text};

/// Looks at the places of the transitions in document order (Markup Specification, 'Transitions'): each that begins a section
/// or follows another one gets a message before it, and each that ends a section moves after it.
///
/// Before:
///
///     <section>
///         <title>
///         <paragraph>
///         <transition>
///     <section>
///
/// After:
///
///     <section>
///         <title>
///         <paragraph>
///     <transition>
///     <section>
///
/// One that the document ends with stays, and a message follows it. No element but the document and its sections contains a
/// transition, so nothing else is gone through.
pub fn transitions(mut document: Document, context: &mut Context) -> Result<Document>
    ensures { IfOk result (Makes (with_transitions document) context.old context.new) }
{
    let nodes = place_in(document.children, true, context)?;
    document.children = Children::of(nodes);
    Ok(document)
}

/// What is wrong with the place of a transition.
#[derive(Clone, Copy)]
enum TransitionFault {
    /// Only titles come before it.
    AtBeginning,
    /// It follows another one.
    Adjacent,
    /// The document ends with it.
    AtEnd,
}

impl TransitionFault {
    /// The text of the message.
    fn text(self) -> &'static str
        ensures { result.now ≡ transition_fault_text self }
    {
        match self {
            TransitionFault::AtBeginning => "Document or section may not begin with a transition.",
            TransitionFault::Adjacent => {
                "At least one body element must separate transitions; adjacent transitions are not allowed."
            }
            TransitionFault::AtEnd => "Document may not end with a transition.",
        }
    }
}

/// Gives the transitions among the nodes of the document or a section, and in its sections, their places. If the document `ends` with
/// the nodes, a transition that they end with gets a message after it.
fn place_in(nodes: Children, ends: bool, context: &mut Context) -> Result<Vec<Node>>
    ensures placed { IfOk result (λ placed. (placed.items, context.new.reports.items) ≡ placed_in context.old.first_number ends (Some AtBeginning) nodes context.old.reports.items) }
    ensures rest { IfOk result (λ _. KeepsRest context.old context.new) }
{
    let mut left = nodes.len();
    let list = nodes.into_list();
    // Most often none has to be moved.
    if list.iter().all(|node| keeps_place(node)) {
        return Ok(list);
    }
    let mut placed = Vec::with_capacity(context.alloc, left)?;
    let mut next_fault = Some(TransitionFault::AtBeginning);
    for node in list {
        left = left.saturating_sub(1);
        let last = ends && left == 0;
        let fault = next_fault;
        next_fault = fault_after(&node, fault);
        match node {
            Node::Text(text) => {
                placed.push(Node::Text(text))?;
                continue;
            }
            Node::Element {
                tag,
                attrs,
                children,
                line,
            } => {
                if is_section(tag) {
                    let inner = place_in(children, last, context)?;
                    put_section(&mut placed, tag, attrs, line, inner)?;
                    continue;
                }
                let node = element(tag, attrs, children, line);
                if is_transition(tag) {
                    put_transition(&mut placed, node, line, fault, last, context)?;
                    continue;
                }
                placed.push(node)?;
            }
        }
    }
    Ok(placed)
}

/// Puts a section with these nodes after others. The transition at its end moves out, to after the section.
fn put_section(
    nodes: &mut Vec<Node>,
    tag: Tag,
    attrs: Attrs,
    line: usize,
    mut inner: Vec<Node>,
) -> Result<()>
    ensures { IfOk result (λ _. nodes.new.items ≡ nodes.old.items ++ placed_section tag attrs line inner.items) }
{
    let staying = staying(inner.as_slice());
    let mut moving = inner.split_off(staying)?;
    nodes.push(element(tag, attrs, Children::of(inner), line))?;
    nodes.append(&mut moving)?;
    Ok(())
}

/// How many of a section's nodes stay in it: all but a transition at its end.
fn staying(nodes: &[Node]) -> usize
    ensures count { result ≡ staying nodes.now }
    ensures within { result ≤ length nodes.now }
{
    match nodes.split_last() {
        Some((last, others)) if is_one(last) => others.len(),
        _ => nodes.len(),
    }
}

/// Puts a transition after nodes, with the message on what is wrong with it before it. If it is the last node of the document, another
/// message follows it.
#[tactic(auto, unfolding(crate::specs::Transitions::placed_transition))]
fn put_transition(
    nodes: &mut Vec<Node>,
    transition: Node,
    line: usize,
    fault: Option<TransitionFault>,
    last: bool,
    context: &mut Context,
) -> Result<()>
    ensures nodes { IfOk result (λ _. let placed = placed_transition context.old.first_number fault last transition line context.old.reports.items in (nodes.new.items ≡ nodes.old.items ++ placed.0) × (context.new.reports.items ≡ placed.1)) }
    ensures rest { IfOk result (λ _. KeepsRest context.old context.new) }
{
    put_message(nodes, line, fault, context)?;
    nodes.push(transition)?;
    let end = last.then_some(TransitionFault::AtEnd);
    put_message(nodes, line, end, context)
}

/// Puts an ERROR on a transition after nodes, if something is wrong with it. It is in the list of messages, too.
#[tactic(auto, unfolding(crate::specs::Transitions::transition_message))]
fn put_message(
    nodes: &mut Vec<Node>,
    line: usize,
    fault: Option<TransitionFault>,
    context: &mut Context,
) -> Result<()>
    ensures nodes { IfOk result (λ _. let made = transition_message context.old.first_number line fault context.old.reports.items in (nodes.new.items ≡ nodes.old.items ++ made.0) × (context.new.reports.items ≡ made.1)) }
    ensures rest { IfOk result (λ _. KeepsRest context.old context.new) }
{
    let Some(fault) = fault else {
        return Ok(());
    };
    let text = Text::from_str(context.alloc, fault.text())?;
    let message = context.report_in_place(Level::Error, line, text)?;
    nodes.push(message)?;
    Ok(())
}

/// What is wrong with a transition after one more node, if anything is.
fn fault_after(node: &Node, fault: Option<TransitionFault>) -> Option<TransitionFault>
    ensures { result ≡ fault_after node.now fault }
{
    if is_title(node) {
        return fault;
    }
    is_one(node).then_some(TransitionFault::Adjacent)
}

/// Whether a node is a transition.
fn is_one(node: &Node) -> bool
    ensures { result ≡ is_one (Some node.now) }
{
    match node {
        Node::Element { tag, .. } => is_transition(*tag),
        Node::Text(_) => false,
    }
}

/// Whether a node is neither a section nor a transition.
fn keeps_place(node: &Node) -> bool
    ensures { result ≡ keeps_place node.now }
{
    match node {
        Node::Element { tag, .. } => !is_section(*tag) && !is_transition(*tag),
        Node::Text(_) => true,
    }
}

/// Whether an element of a kind is a section.
fn is_section(tag: Tag) -> bool
    ensures { result ≡ is_section tag }
{
    matches!(tag, Tag::Section)
}

/// Whether an element of a kind is a transition.
fn is_transition(tag: Tag) -> bool
    ensures { result ≡ is_transition tag }
{
    matches!(tag, Tag::Transition)
}
