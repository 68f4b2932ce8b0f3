//! Block quotes of a class (Directives, 'Epigraph', 'Highlights', 'Pull-Quote').
ghost use Rattle.std.specs.Prelude.{◌≡◌, map, IfOk};
ghost use Rattle.rst_block_state.specs.Directives.{classed};

use rst_markup_directives::QuoteClass;
use rst_tree::{Node, Tag, Text, Texts};
use rst_tree_index::{Marked, MarkedNodes};
use std::alloc::{AllocError, Global};

/// The nodes of a content, the block quotes among them with their class.
pub fn finished_quotes(
    alloc: Global,
    class: QuoteClass,
    nodes: MarkedNodes,
) -> Result<MarkedNodes, AllocError>
    ensures { IfOk result (λ made. made ≡ map (classed class) nodes) }
{
    let mut rest = nodes.into_marked();
    let mut made = MarkedNodes::none(alloc);
    while let Some(node) = rest.next(alloc) {
        made.push(classed(alloc, class, node)?)?;
    }
    Ok(made)
}

/// A block quote with its class; another node stays as it is. Nobody goes through the nodes in it.
fn classed(alloc: Global, class: QuoteClass, node: Marked) -> Result<Marked, AllocError>
    ensures { IfOk result (λ made. made ≡ classed class node) }
{
    let Node::Element {
        tag: Tag::BlockQuote,
        ..
    } = node.root()
    else {
        return Ok(node);
    };
    let mut classes = Texts::new(alloc);
    classes.push(Text::from_str(alloc, class.name())?)?;
    node.with_classes(alloc, classes.as_slice())
}
