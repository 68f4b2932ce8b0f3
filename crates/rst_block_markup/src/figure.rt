//! Figures (Directives, 'Figure').
ghost use Rattle.std.specs.Prelude.{◌≡◌, ◌+◌, ◌-◌, ◌≤◌, ◌∷◌, ◌++◌, take, drop, IfOk};
ghost use Rattle.rst_text.specs.Block.{first_number};
ghost use Rattle.rst_text.specs.Looked.{capped};
ghost use Rattle.rst_text.specs.ViewBlock.{block_of};
ghost use Rattle.rst_block_nodes.specs.Sections.{filled};
ghost use Rattle.rst_block_state.specs.Figures as spec;
ghost use Rattle.rst_block_state.specs.Texts.{span_source};
ghost use Rattle.rst_block_markup.specs.MarkupSteps.{beginning_in};

use rst_block_nodes::{completed, message};
use rst_block_state::{number_at, source, split_nodes};
use rst_text::{Looks, View};
use rst_tree::{Attrs, Key, Level, Node, Tag};
use rst_tree_index::{Marked, MarkedIter, MarkedNodes};
use std::alloc::{AllocError, Global};

/// What the content of a figure begins with.
enum ContentStart {
    /// A caption, and how many messages on its text follow it.
    Caption(Node, u64),
    /// An empty comment, in a caption's place.
    Missing,
    /// Something else.
    Wrong,
}

/// A figure with the nodes of its content as caption and legend, and the messages of the caption after it. Its lines are those
/// from place `start` up to place `end`. They are looked at only if a message quotes them.
pub fn finished_figure(
    alloc: Global,
    view: &View<'_>,
    figure: Node,
    start: usize,
    end: usize,
    nodes: MarkedNodes,
    looks: &mut Looks,
) -> Result<MarkedNodes, AllocError>
    ensures figure { let B = block_of view.now in
        let error = spec.caption_error (first_number (drop start B)) (span_source B (record { start = start; stop = end })) in
        IfOk result (λ made. made ≡ spec.figure_nodes figure error nodes) }
    ensures looks { looks.new ≤ looks.old + (end - start) }
    ensures low { IfOk result (λ _. capped looks.old ≤ looks.new) }
{
    let mut rest = nodes.into_marked();
    let Some(first) = rest.next(alloc) else {
        return MarkedNodes::alone(alloc, Marked::of(alloc, figure)?);
    };
    match content_start(first.into_root()) {
        // The caption is marked as a new node. Its text was marked in its paragraph, but no caption is in another: so nothing
        // is marked more than twice.
        ContentStart::Caption(caption, count) => {
            let caption = MarkedNodes::alone(alloc, Marked::of(alloc, caption)?)?;
            captioned(alloc, figure, caption, rest, count)
        }
        ContentStart::Missing => captioned(alloc, figure, MarkedNodes::none(alloc), rest, 0),
        ContentStart::Wrong => {
            let text = "Figure caption must be a paragraph or empty comment.";
            let lines = source(alloc, view, start, end, looks)?;
            let line = number_at(view, start);
            let error = message(alloc, Level::Error, line, text, Some(lines.as_str()))?;
            let mut nodes = MarkedNodes::alone(alloc, Marked::of(alloc, figure)?)?;
            nodes.push_new(error)?;
            Ok(nodes)
        }
    }
}

/// A figure with its caption, if it has one, and the nodes after the caption: the first `count` ones are the messages of
/// the caption and come after the figure, the others are its legend.
fn captioned(
    alloc: Global,
    figure: Node,
    mut caption_nodes: MarkedNodes,
    rest: MarkedIter,
    count: u64,
) -> Result<MarkedNodes, AllocError>
    ensures { IfOk result (λ made. made ≡ filled figure (caption_nodes ++ spec.legend_nodes (drop count rest)) ∷ take count rest) }
{
    let (notes, legend) = split_nodes(alloc, rest, count)?;
    caption_nodes.append(legend_nodes(alloc, legend)?)?;
    let mut nodes = MarkedNodes::alone(alloc, completed(alloc, figure, caption_nodes)?)?;
    nodes.append(notes)?;
    Ok(nodes)
}

/// What the first node of a figure's content is.
fn content_start(node: Node) -> ContentStart
    ensures { beginning_in result ≡ spec.beginning_of node }
{
    match node {
        Node::Element {
            tag: Tag::Paragraph,
            mut attrs,
            children,
            line,
        } => {
            let count = attrs.number(Key::TextMessages).unwrap_or(0);
            attrs.remove(Key::Classes);
            let caption = Node::Element {
                tag: Tag::Caption,
                attrs,
                children,
                line,
            };
            ContentStart::Caption(caption, count)
        }
        Node::Element {
            tag: Tag::Comment,
            children,
            ..
        } => {
            if children.len() == 0 {
                ContentStart::Missing
            } else {
                ContentStart::Wrong
            }
        }
        _ => ContentStart::Wrong,
    }
}

/// The legend of some nodes, if there are some.
fn legend_nodes(alloc: Global, nodes: MarkedNodes) -> Result<MarkedNodes, AllocError>
    ensures { IfOk result (λ made. made ≡ spec.legend_nodes nodes) }
{
    if nodes.is_empty() {
        return Ok(nodes);
    }
    let legend = nodes.into_element(Tag::Legend, Attrs::new(alloc), 0)?;
    MarkedNodes::alone(alloc, legend)
}
