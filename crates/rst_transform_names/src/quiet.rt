//! Elements that messages on equal names leave as they are.
ghost use Rattle.std.specs.Prelude.{◌≡◌};
ghost use Rattle.rst_transform_names.specs.NameMessages.{message_on};
ghost use Rattle.rst_transform_names.specs.PlacingMessages as spec;

use rst_tree::{Attrs, Children, Key, Node, Tag};

/// Whether an element itself gives nothing that is placed: it is no section, and there is no message on its name or after its text.
fn gives_none(tag: Tag, attrs: &Attrs, messages: &[Option<Node>]) -> bool
    ensures { result ≡ spec.gives_none (message_on messages.now) tag attrs.now }
{
    if matches!(tag, Tag::Section) || attrs.number(Key::TextMessages).is_some() {
        return false;
    }
    match attrs.number(Key::Serial) {
        Some(serial) => !matches!(messages.get(serial as usize), Some(Some(_))),
        None => true,
    }
}

/// Whether no element among nodes, and none inside, gives anything that is placed.
fn are_quiet(nodes: &Children, messages: &[Option<Node>]) -> bool
    ensures { result ≡ spec.are_quiet (message_on messages.now) nodes.now }
{
    for node in nodes.as_slice() {
        let Node::Element {
            tag,
            attrs,
            children,
            ..
        } = node
        else {
            continue;
        };
        if !gives_none(*tag, attrs, messages) || !are_quiet(children, messages) {
            return false;
        }
    }
    true
}

/// Whether an element stays as it is wherever it stands: it takes in no queue, and neither it nor any in it gives anything that is placed.
#[inline(never)]
pub fn is_quiet(tag: Tag, attrs: &Attrs, nodes: &Children, messages: &[Option<Node>]) -> bool
    ensures { result ≡ spec.is_quiet (message_on messages.now) tag attrs.now nodes.now }
{
    !matches!(tag, Tag::Definition | Tag::FieldBody)
        && gives_none(tag, attrs, messages)
        && are_quiet(nodes, messages)
}
