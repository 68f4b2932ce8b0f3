//! The places of the messages on equal names.
ghost use Rattle.std.specs.Prelude.{◌≡◌, [], IfOk};
ghost use Rattle.rst_transform_names.specs.NameMessages as spec;
ghost use Rattle.rst_transform_names.specs.NameMessages.{message_on};
ghost use Rattle.rst_transform_names.specs.PlacingMessages.{seen};

use super::inside::{Inside, put_first};
use super::queue::{Queue, put_next};
use super::quiet::is_quiet;
use rst_tree::{Children, Node, Result, Tag};
use std::alloc::Global;

/// Goes through the nodes of an element of a kind, which begin with a queue, and puts the messages on names there.
// What happens at an element is in functions of its own: a call of this one takes little of the stack.
fn fill(
    alloc: Global,
    parent: Tag,
    nodes: Children,
    first: &mut Queue,
    messages: &[Option<Node>],
    made: &mut Inside,
) -> Result<()>
    ensures { IfOk result (λ _. seen made.new ≡ spec.filled (spec.own_message (message_on messages.now)) parent first.old.items [] (record (seen made.old) { nodes = [] }) nodes) }
{
    if nodes.are_plain() {
        made.nodes = nodes.into_list();
        put_next(first, &mut made.nodes)?;
        return Ok(());
    }
    made.nodes = Vec::with_capacity(alloc, nodes.len())?;
    let mut due = Queue::new(alloc);
    // Only the nodes of these are looked through, and so none twice: a look ends at a section, and markup puts no document into an
    // element.
    let looks = matches!(parent, Tag::Document | Tag::Section);
    for node in nodes.into_list() {
        match node {
            Node::Text(text) => made.nodes.push(Node::Text(text))?,
            Node::Element {
                tag,
                attrs,
                children,
                line,
            } => {
                made.put_due(first, &mut due)?;
                if looks && is_quiet(tag, &attrs, &children, messages) {
                    made.nodes.push(Node::Element {
                        tag,
                        attrs,
                        children,
                        line,
                    })?;
                    continue;
                }
                let mut begun = Queue::new(alloc);
                put_first(alloc, tag, &attrs, messages, &mut made.queue, &mut begun)?;
                let mut inside = Inside::beginning(alloc, tag, &attrs)?;
                fill(alloc, tag, children, &mut begun, messages, &mut inside)?;
                inside.put_own(alloc, tag, &attrs, messages)?;
                made.add(parent, tag, attrs, line, inside, &mut due)?;
            }
        }
    }
    made.put_due(first, &mut due)
}

/// Puts the messages on names, by the numbers of their elements, into a document, in one pass.
///
/// A message on the name of a section comes after its title, the title's messages and the warning on its adornment; that on the
/// name of a target in a text after the messages of this text; and any other before its element, for an image in a reference or
/// in a substitution definition before the outermost of these.
pub fn place_name_messages(alloc: Global, document: Node, messages: &[Option<Node>]) -> Result<Node>
    ensures { IfOk result (λ placed. placed ≡ spec.with_name_messages (message_on messages.now) document) }
{
    if !messages.iter().any(|message| message.is_some()) {
        return Ok(document);
    }
    match document {
        Node::Text(text) => Ok(Node::Text(text)),
        Node::Element {
            tag,
            attrs,
            children,
            line,
        } => {
            let mut first = Queue::new(alloc);
            let mut made = Inside::beginning(alloc, tag, &attrs)?;
            fill(alloc, tag, children, &mut first, messages, &mut made)?;
            Ok(Node::Element {
                tag,
                attrs,
                children: Children::of(made.nodes),
                line,
            })
        }
    }
}
