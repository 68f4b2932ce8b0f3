//! What several transforms ask of attributes, names and nodes.
ghost use Rattle.std.specs.Prelude.{◌≡◌, string_bytes, IfOk};
ghost use Rattle.rst_text.specs.Names.{identifier, name_in};
ghost use Rattle.rst_tree.specs.declared.node.Node.TheVariants.{Element};
ghost use Rattle.rst_transform_work.specs.Reading.{rawsource_of};
ghost use Rattle.rst_transform_work.specs.Lists.{named};

use crate::lists::append_names;
use rst_text::{id_of, name_of};
use rst_tree::{Attrs, Children, Key, Node, Result, Tag, Text, Value};
use std::alloc::Global;

/// The name that a text gives, by `name_of`.
#[tactic(auto, using(rst_text::proofs::TextLemmas::bytes_of_chars))]
pub fn folded(alloc: Global, text: &str) -> Result<String>
    ensures { IfOk result (λ name. string_bytes name ≡ name_in text.now) }
{
    name_of(alloc, text)
}

/// The id that a text gives, by `id_of`.
#[tactic(auto, using(rst_text::proofs::TextLemmas::bytes_of_chars))]
pub fn identified(alloc: Global, text: &str) -> Result<String>
    ensures { IfOk result (λ id. string_bytes id ≡ identifier text.now) }
{
    id_of(alloc, text)
}

/// An element with attributes and nodes, on a line.
pub fn element(tag: Tag, attrs: Attrs, children: Children, line: usize) -> Node
    ensures { result ≡ Element tag attrs children line }
{
    Node::Element {
        tag,
        attrs,
        children,
        line,
    }
}

/// Equal nodes.
pub fn copies(alloc: Global, nodes: &Children) -> Result<Children>
    ensures { IfOk result (λ equal. equal ≡ nodes.now) }
{
    let mut copied = Vec::new(alloc);
    for node in nodes.as_slice() {
        copied.push(node.copy(alloc)?)?;
    }
    Ok(Children::of(copied))
}

/// Puts the ids, names and lost names of attributes after those of a node.
pub fn add_names(alloc: Global, node: &mut Node, from: &Attrs) -> Result<()>
    ensures { IfOk result (λ _. node.new ≡ named from.now node.old) }
{
    match node {
        Node::Element { attrs, .. } => append_names(alloc, attrs, from),
        Node::Text(_) => Ok(()),
    }
}

/// The source text of a reference, taken out of its attributes; the empty text where they have none.
pub fn take_source(alloc: Global, attrs: &mut Attrs) -> Result<Text>
    ensures { IfOk result (λ source. source ≡ rawsource_of attrs.old) }
{
    match attrs.remove(Key::Rawsource) {
        Some(Value::Text(source)) => Ok(source),
        _ => Text::from_str(alloc, ""),
    }
}
