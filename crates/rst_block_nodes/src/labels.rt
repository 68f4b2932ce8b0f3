//! Footnotes and citations.
ghost use Rattle.std.specs.Prelude.{◌≡◌, IfOk};
ghost use Rattle.rst_block_nodes.specs.Elements.{labelled_node, footnote_node, citation_node};

use super::nodes::{element_of, plain};
use super::values::{name_value, text_value};
use rst_markup_lines::{begins_with, is_blank};
use rst_text::skip;
use rst_tree::{Attrs, Key, Node, Result, Tag, Value};
use std::alloc::Global;

/// A footnote with its label, without its content (Document Tree, 'footnote'). The label is digits, which it shows and is
/// named by; `#`, maybe with a name after it, which numbers it; or `*`, which gives it a symbol.
///
/// The only refusal is [`AllocError`].
pub fn footnote(alloc: Global, label: &str, line: usize) -> Result<Node>
    ensures { IfOk result (λ node. node ≡ footnote_node label.now line) }
{
    let mut attrs = Attrs::lone(alloc, Key::Mark, text_value(alloc, label)?)?;
    if begins_with('#', label) {
        let name = skip(label, 1);
        attrs.set(Key::Auto, Value::Number(1))?;
        if !is_blank(name) {
            attrs.set(Key::OwnName, name_value(alloc, name)?)?;
        }
        return labelled(alloc, Tag::Footnote, attrs, "", line);
    }
    if begins_with('*', label) {
        attrs.set(Key::Auto, text_value(alloc, "*")?)?;
        return labelled(alloc, Tag::Footnote, attrs, "", line);
    }
    attrs.set(Key::OwnName, name_value(alloc, label)?)?;
    labelled(alloc, Tag::Footnote, attrs, label, line)
}

/// A citation with its label, which names it, without its content (Document Tree, 'citation').
///
/// The only refusal is [`AllocError`].
pub fn citation(alloc: Global, label: &str, line: usize) -> Result<Node>
    ensures { IfOk result (λ node. node ≡ citation_node label.now line) }
{
    let attrs = Attrs::lone(alloc, Key::OwnName, name_value(alloc, label)?)?;
    labelled(alloc, Tag::Citation, attrs, label, line)
}

/// An element that begins with a label that shows a text.
fn labelled(alloc: Global, tag: Tag, attrs: Attrs, label_text: &str, line: usize) -> Result<Node>
    ensures { IfOk result (λ node. node ≡ labelled_node tag attrs label_text.now line) }
{
    let mut nodes = Vec::new(alloc);
    nodes.push(plain(alloc, Tag::Label, line, label_text)?)?;
    Ok(element_of(tag, attrs, nodes, line))
}
