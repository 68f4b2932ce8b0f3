//! Targets and substitution definitions.
ghost use Rattle.std.specs.Prelude.{◌≡◌, string_bytes, option_map, IfOk};
ghost use Rattle.std.specs.List.{list_any};
ghost use Rattle.rst_text.specs.Text.{chars_of};
ghost use Rattle.rst_inline.specs.Mail.{mailed};
ghost use Rattle.rst_tree_index.specs.Kinds.{is_substitution_reference_node};
ghost use Rattle.rst_block_nodes.specs.Values.{normalized, unescaped};
ghost use Rattle.rst_block_nodes.specs.Elements.{substitution_definition_node};
ghost use Rattle.rst_block_nodes.specs.Targets.{target_node, may_replace, may_stand};

use super::nodes::element_of;
use super::values::{name_value, text_value, unescaped};
use rst_inline::mailto;
use rst_markup_directives::{Target, target_value};
use rst_text::normalized_white;
use rst_tree::{Attrs, Entry, Key, Node, Result, Tag, Text, Value};
use std::alloc::Global;

/// A target that is a block: its name as it is written, still with escapes, if it has one, and its text, whose lines are
/// joined by line feeds and may have their indentation (Markup Specification, 'Hyperlink Targets'). It leads to a name or
/// to a URI, or marks its own place where nothing is left of its text. One without a name is anonymous. Where `mail` asks for e-mail addresses, a URI that
/// is one gets its scheme.
///
/// The only refusal is [`AllocError`].
#[tactic(auto, using(rst_text::proofs::TextLemmas::bytes_encoded))]
pub fn target(
    alloc: Global,
    mail: bool,
    name: Option<&str>,
    text: &str,
    line: usize,
) -> Result<Node>
    ensures { IfOk result (λ node. node ≡ target_node mail (option_map (λ written. written.now) name.entry) text.now line) }
{
    let destination = target_value(alloc, text)?;
    // Registration gives it up to three attributes more.
    let mut list = Vec::with_capacity(alloc, 5)?;
    list.push(match name {
        Some(written) => {
            let name = unescaped(alloc, written)?;
            Entry::new(Key::OwnName, name_value(alloc, name.as_str())?)
        }
        None => Entry::new(Key::Anonymous, Value::Number(1)),
    })?;
    let mut attrs = Attrs::of(list);
    match destination {
        Some(Target::Name(name)) => attrs.set(Key::Refname, name_value(alloc, name.as_str())?)?,
        Some(Target::Uri(uri)) => {
            let uri = mailed(alloc, mail, uri)?;
            attrs.set(Key::Refuri, Value::Text(Text::new(uri)))?
        }
        None => {}
    }
    Ok(element_of(Tag::Target, attrs, Vec::new(alloc), line))
}

/// A URI as it is kept: with the scheme of e-mail addresses where it is one as a whole, and where `mail` asks for them.
fn mailed(alloc: Global, mail: bool, uri: String) -> Result<String>
    ensures { IfOk result (λ kept. chars_of kept ≡ mailed mail (chars_of uri)) }
{
    if mail {
        if let Some(address) = mailto(alloc, uri.as_str())? {
            return Ok(address);
        }
    }
    Ok(uri)
}

/// The name of a substitution definition that is written in this way: without escapes, each run of white characters as one
/// space, and none at the ends. Case is kept.
///
/// The only refusal is [`AllocError`].
#[tactic(auto, using(rst_text::proofs::TextLemmas::bytes_of_chars))]
pub fn substitution_name(alloc: Global, written: &str) -> Result<String>
    ensures { IfOk result (λ name. string_bytes name ≡ normalized (unescaped written.now)) }
{
    let name = unescaped(alloc, written)?;
    normalized_white(alloc, name.as_str())
}

/// A substitution definition, without its content; the name is that of [`substitution_name`] (Document Tree,
/// 'substitution_definition').
///
/// The only refusal is [`AllocError`].
pub fn substitution_definition(alloc: Global, name: &str, line: usize) -> Result<Node>
    ensures { IfOk result (λ node. node ≡ substitution_definition_node name.now line) }
{
    let attrs = Attrs::lone(alloc, Key::OwnName, text_value(alloc, name)?)?;
    Ok(element_of(Tag::SubstitutionDefinition, attrs, Vec::new(alloc), line))
}

/// Whether these nodes of a text may replace a substitution reference (Docutils, Directives, 'Replacement
/// Text'): text, plain roles, substitution references, references that aren't anonymous and don't contain a
/// substitution reference, and the targets that aliases leave, which refer to names.
pub fn may_replace(nodes: &[Node]) -> bool
    ensures { result ≡ may_replace nodes.now }
{
    nodes.iter().all(|node| may_stand(node))
}

/// Whether a node is allowed in a replacement text.
#[tactic(auto, using(rst_tree::proofs::Changes::nodes_are))]
fn may_stand(node: &Node) -> bool
    ensures { result ≡ may_stand node.now }
{
    match node {
        Node::Text(_) => true,
        Node::Element {
            tag: Tag::Reference,
            attrs,
            children,
            ..
        } => !attrs.has(Key::Anonymous) && !has_substitution(children.as_slice()),
        Node::Element {
            tag: Tag::Target,
            attrs,
            ..
        } => attrs.has(Key::Refname),
        Node::Element { tag, .. } => matches!(
            tag,
            Tag::Abbreviation
                | Tag::Acronym
                | Tag::Emphasis
                | Tag::Handed
                | Tag::Strong
                | Tag::Literal
                | Tag::Math
                | Tag::Subscript
                | Tag::Superscript
                | Tag::TitleReference
                | Tag::SubstitutionReference
        ),
    }
}

/// Whether one of the nodes is a substitution reference.
fn has_substitution(nodes: &[Node]) -> bool
    ensures { result ≡ list_any is_substitution_reference_node nodes.now }
{
    nodes.iter().any(|node| {
        matches!(
            node,
            Node::Element {
                tag: Tag::SubstitutionReference,
                ..
            }
        )
    })
}
