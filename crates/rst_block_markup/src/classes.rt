//! Classes of what is in a directive, or follows it (Directives, 'Class').
ghost use Rattle.std.specs.Prelude.{◌≡◌, ◌-◌, map, IfOk};
ghost use Rattle.rst_text.specs.ViewBlock.{block_of};
ghost use Rattle.rst_tree_index.specs.Classes as tree;
ghost use Rattle.rst_markup_directives.specs.Argument as given;
ghost use Rattle.rst_markup_directives.specs.declared.kind.ContentKind.TheVariants.{Classed};
ghost use Rattle.rst_block_state.specs.Directives.{with_words};
ghost use Rattle.rst_block_markup.specs.MarkupSteps.{IsOpenedRead, IsRight};

use super::directive::{Found, opened};
use rst_block_nodes::{directive_element, filled, text_nodes};
use rst_block_state::{OpenBlock, Pass, Result, Step, Waits, number_at, source};
use rst_text::View;
use rst_tree::{Key, Node, Tag, Text, ValueRef};
use rst_tree_index::{Marked, MarkedNodes};
use std::alloc::{AllocError, Global};

/// The directive `class`: the nodes of its content get its words. Without content its element stays, with its lines, up to the
/// transform that gives the words to what follows.
pub(crate) fn class_block(
    view: &View<'_>,
    level: &mut OpenBlock,
    found: &Found,
    pass: &mut Pass,
) -> Result<Step>
    requires right { IsRight (block_of view.now) level.old.at found.now }
    requires content { found.now.kind.content ≡ Classed }
    ensures { let few = found.now.end - level.old.at in
        IsOpenedRead few (block_of view.now) level.old pass.old found.now given.nothing level.new pass.new result }
{
    let alloc = pass.alloc;
    let at = level.at;
    let line = number_at(view, at);
    let options = found.options.as_slice();
    let element = directive_element(alloc, found.kind.element, &found.argument, options, line)?;
    if !found.content.is_empty() {
        return Ok(opened(level, Waits::Classes(element), found));
    }
    let lines = source(alloc, view, at, found.end, &mut pass.looks)?;
    let element = filled(element, text_nodes(alloc, lines.as_str())?)?;
    Ok(opened(level, Waits::Element(element), found))
}

/// The nodes of a content, each with the classes of an element after its own.
pub fn finished_classes(
    alloc: Global,
    element: &Node,
    nodes: MarkedNodes,
) -> Result<MarkedNodes, AllocError>
    ensures { IfOk result (λ made. made ≡ map (with_words (tree.classes_of element.now)) nodes) }
{
    let mut rest = nodes.into_marked();
    let mut made = MarkedNodes::none(alloc);
    while let Some(node) = rest.next(alloc) {
        made.push(with_words(alloc, element, node)?)?;
    }
    Ok(made)
}

/// The classes of a node.
fn classes_of(node: &Node) -> &[Text]
    ensures { result.now ≡ tree.classes_of node.now }
{
    let Node::Element { attrs, .. } = node else {
        return &[];
    };
    match attrs.get(Key::Classes) {
        Some(ValueRef::List(classes)) => classes,
        _ => &[],
    }
}

/// A node with the classes of an element after its own; those of another directive `class` stay as they are. Nobody goes through the
/// nodes in it.
fn with_words(alloc: Global, element: &Node, node: Marked) -> Result<Marked, AllocError>
    ensures { IfOk result (λ made. made ≡ with_words (tree.classes_of element.now) node) }
{
    if let Node::Element {
        tag: Tag::Class,
        ..
    } = node.root()
    {
        return Ok(node);
    }
    node.with_classes(alloc, classes_of(element))
}
