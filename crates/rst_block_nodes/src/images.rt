//! Images and figures.
ghost use Rattle.std.specs.Prelude.{◌≡◌, option_map, IfOk};
ghost use Rattle.rst_markup_directives.specs.Options.{choices_in};
ghost use Rattle.rst_markup_directives.specs.Target.{destination_of};
ghost use Rattle.rst_block_nodes.specs.Options.{image_element, link_chosen, linked_node, figure_element};

use super::nodes::element_of;
use super::settings::{Holder, set_options};
use super::values::{name_value, text_value};
use rst_markup_directives::{OptionValue, Setting, Target};
use rst_text::normalized_white;
use rst_tree::{Attrs, Key, Node, Result, Tag, Text, Value};
use std::alloc::Global;

/// An image, in a reference where its options give it a target (Docutils, Directives, 'Image'). The image of
/// a figure has no alignment. `alt` is the alternate text where no option gives another.
///
/// The only refusal is [`AllocError`].
pub fn image(
    alloc: Global,
    uri: &str,
    options: &[Setting],
    line: usize,
    in_figure: bool,
    alt: Option<&str>,
) -> Result<Node>
    ensures { IfOk result (λ node. node ≡ image_element uri.now (choices_in options.now) line in_figure (option_map (λ text. text.now) alt.entry)) }
{
    let mut attrs = Attrs::new(alloc);
    attrs.set(Key::Uri, text_value(alloc, uri)?)?;
    if let Some(text) = alt {
        attrs.set(Key::Alt, text_value(alloc, text)?)?;
    }
    let holder = if in_figure {
        Holder::FigureImage
    } else {
        Holder::Image
    };
    set_options(alloc, &mut attrs, holder, options)?;
    let image = element_of(Tag::Image, attrs, Vec::new(alloc), line);
    match link_of(options) {
        Some((to, source)) => linked(alloc, image, to, source, line),
        None => Ok(image),
    }
}

/// What an option `target` leads to, and the text that it is written with.
fn link_of(options: &[Setting]) -> Option<(&Target, &str)>
    ensures { option_map (λ link. (destination_of link.0.now, link.1.now)) result ≡ link_chosen (choices_in options.now) }
{
    for setting in options {
        if let OptionValue::Link { to, source } = &setting.value {
            return Some((to, source.as_str()));
        }
    }
    None
}

/// A reference round an image: what it leads to, and how it is written.
#[tactic(auto, using(rst_text::proofs::TextLemmas::bytes_encoded, rst_text::proofs::TextLemmas::bytes_of_chars))]
fn linked(alloc: Global, image: Node, to: &Target, source: &str, line: usize) -> Result<Node>
    ensures { IfOk result (λ node. node ≡ linked_node image (destination_of to.now) source.now line) }
{
    let mut attrs = Attrs::new(alloc);
    attrs.set(Key::Rawsource, text_value(alloc, source)?)?;
    match to {
        Target::Uri(uri) => attrs.set(Key::Refuri, text_value(alloc, uri.as_str())?)?,
        Target::Name(name) => {
            let normalized_name = normalized_white(alloc, name.as_str())?;
            attrs.set(Key::Name, Value::Text(Text::new(normalized_name)))?;
            attrs.set(Key::Refname, name_value(alloc, name.as_str())?)?;
        }
    }
    let mut nodes = Vec::new(alloc);
    nodes.push(image)?;
    Ok(element_of(Tag::Reference, attrs, nodes, line))
}

/// A figure, without its image, caption and legend (Docutils, Directives, 'Figure').
///
/// The only refusal is [`AllocError`].
pub fn figure(alloc: Global, options: &[Setting], line: usize) -> Result<Node>
    ensures { IfOk result (λ node. node ≡ figure_element (choices_in options.now) line) }
{
    let mut attrs = Attrs::new(alloc);
    set_options(alloc, &mut attrs, Holder::Figure, options)?;
    Ok(element_of(Tag::Figure, attrs, Vec::new(alloc), line))
}
