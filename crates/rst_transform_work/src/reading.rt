//! The values of an element's attributes.
ghost use Rattle.std.specs.Prelude.{◌≡◌, [], MatchOption, Some, None, is_some, slice_get, unwrap_or, IfOk};
ghost use Rattle.rst_tree.specs.Attributes.{value_of, as_text};
ghost use Rattle.rst_tree.specs.Paths.{node_value};
ghost use Rattle.rst_transform_work.specs.Reading.{text_of_attribute, number_of_attribute, list_of_attribute, line_of, may_precede, is_title};

use rst_tree::{Attrs, Key, Node, Result, Tag, Texts, ValueRef};
use std::alloc::Global;

/// The value of an attribute, where it is a text, or else the empty text.
pub fn text_or_empty(attrs: &Attrs, key: Key) -> &str
    ensures { result.now ≡ unwrap_or (as_text (value_of key attrs.now)) [] }
{
    attrs.text(key).map_or("", |text| text.as_str())
}

/// The value of an attribute of a node, where it is a text.
pub fn text_of_attribute<'a>(node: &'a Node, key: Key) -> Option<&'a str>
    ensures { MatchOption result (text_of_attribute key node.now ≡ None) (λ text. text_of_attribute key node.now ≡ Some text.now) }
{
    match node {
        Node::Element { attrs, .. } => Some(attrs.text(key)?.as_str()),
        Node::Text(_) => None,
    }
}

/// The value of an attribute of a node, where it is a number.
pub fn number_of_attribute(node: &Node, key: Key) -> Option<u64>
    ensures { result ≡ number_of_attribute key node.now }
{
    match node {
        Node::Element { attrs, .. } => attrs.number(key),
        Node::Text(_) => None,
    }
}

/// The first member of an attribute's value, where it is a list that has one.
pub fn first_of_attribute<'a>(node: &'a Node, key: Key) -> Option<&'a str>
    ensures { MatchOption result (slice_get (list_of_attribute key node.now) 0 ≡ None) (λ text. slice_get (list_of_attribute key node.now) 0 ≡ Some text.now) }
{
    match node.value(key) {
        Some(ValueRef::List([text, ..])) => Some(text.as_str()),
        _ => None,
    }
}

/// A copy of an attribute's value, where it is a list, or else an empty list.
pub fn list_of_attribute(alloc: Global, node: &Node, key: Key) -> Result<Texts>
    ensures { IfOk result (λ list. list ≡ list_of_attribute key node.now) }
{
    match node.value(key) {
        Some(ValueRef::List(list)) => Texts::copy_of(alloc, list),
        _ => Ok(Texts::new(alloc)),
    }
}

/// Whether an element has an attribute.
pub fn has(node: &Node, key: Key) -> bool
    ensures { result ≡ is_some (node_value key node.now) }
{
    node.value(key).is_some()
}

/// The number of the first line of an element; 0 for a text, which has none of its own.
pub fn line_of(node: &Node) -> usize
    ensures { result ≡ line_of node.now }
{
    match node {
        Node::Element { line, .. } => *line,
        Node::Text(_) => 0,
    }
}

/// Whether a node may come before the lone section of a document.
pub fn may_precede(node: &Node) -> bool
    ensures { result ≡ may_precede node.now }
{
    match node {
        Node::Element { tag, .. } => matches!(
            tag,
            Tag::Comment | Tag::Target | Tag::SubstitutionDefinition | Tag::Raw | Tag::SystemMessage
        ),
        Node::Text(_) => false,
    }
}

/// Whether a node is a title or a subtitle.
pub fn is_title(node: &Node) -> bool
    ensures { result ≡ is_title node.now }
{
    match node {
        Node::Element { tag, .. } => matches!(tag, Tag::Title | Tag::Subtitle),
        Node::Text(_) => false,
    }
}
