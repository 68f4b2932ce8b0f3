//! Admonitions, topics, containers, program code and other texts.
ghost use Rattle.std.specs.Prelude.{◌≡◌, option_map, chars, Ok, IfOk};
ghost use Rattle.rst_block_nodes.specs.Admonitions.{title_class, with_title_class};
ghost use Rattle.rst_markup_directives.specs.Argument.{given_in};
ghost use Rattle.rst_markup_directives.specs.Options.{choices_in};
ghost use Rattle.rst_block_nodes.specs.Options.{code_attrs, directive_element, given_attrs, handed_directive_node, literal_element, subtitle_chosen, with_options};
ghost use Rattle.rst_block_nodes.specs.Readings.{subtitled};

use super::nodes::{element_of, preserving, text_nodes};
use super::numbers::Numbers;
use super::settings::{Holder, set_options};
use super::terms::Heads;
use super::texted::with_text;
use super::values::{list_of_texts, text_value};
use rst_inline::handed;
use rst_markup_directives::{Argument, OptionName, OptionValue, Setting};
use rst_settings::Parts;
use rst_text::id_of;
use rst_tree::{Attrs, Key, Node, Result, Tag, Text, Texts, Value};
use std::alloc::Global;

/// The element of a directive with a body, with what its argument and its options give, without title and content
/// (Docutils, Directives, 'Admonitions').
///
/// The only refusal is [`AllocError`].
pub fn directive_element(
    alloc: Global,
    element: Tag,
    argument: &Argument,
    options: &[Setting],
    line: usize,
) -> Result<Node>
    ensures { IfOk result (λ node. node ≡ directive_element element (given_in argument.now) (choices_in options.now) line) }
{
    let mut attrs = Attrs::new(alloc);
    set_options(alloc, &mut attrs, Holder::Body, options)?;
    set_argument(alloc, &mut attrs, argument)?;
    Ok(element_of(element, attrs, Vec::new(alloc), line))
}

/// A directive that is handed back, by its name and its lines.
///
/// The only refusal is [`AllocError`].
pub fn handed_directive(alloc: Global, name: &str, source: &str, line: usize) -> Result<Node>
    ensures { IfOk result (λ node. node ≡ handed_directive_node name.now source.now line) }
{
    handed(alloc, "directive", name, source, line)
}

/// An element of the directive `admonition` with the class that its title gives, unless its options gave it some: the
/// word `admonition-` with the id of the title's text (Docutils, Directives, 'Generic Admonition').
///
/// The only refusal is [`AllocError`].
pub fn with_title_class(alloc: Global, mut admonition: Node, title: &Node) -> Result<Node>
    ensures { IfOk result (λ node. node ≡ with_title_class admonition title.now) }
{
    if let Node::Element { attrs, .. } = &mut admonition {
        if !attrs.has(Key::Classes) {
            attrs.set(Key::Classes, title_class(alloc, title)?)?;
        }
    }
    Ok(admonition)
}

/// The class that a title gives.
#[tactic(auto, using(rst_text::proofs::TextLemmas::bytes_of_chars))]
fn title_class(alloc: Global, title: &Node) -> Result<Value>
    ensures { IfOk result (λ class. class ≡ title_class title.now) }
{
    let text = title.text_of(alloc)?;
    let id = id_of(alloc, text.as_str())?;
    let mut class = Text::from_str(alloc, "admonition-")?;
    class.push_str(id.as_str())?;
    let mut classes = Texts::new(alloc);
    classes.push(class)?;
    Ok(Value::List(classes))
}

/// The subtitle that the options of a directive in a line give, if they give one, and the messages on its text (Docutils, Directives,
/// 'Sidebar').
///
/// The only refusal is [`AllocError`].
pub fn subtitle(
    alloc: Global,
    parts: &Parts,
    options: &[Setting],
    line: usize,
    numbers: &mut Numbers,
) -> Result<Heads>
    ensures { IfOk result (λ made. subtitled parts.now (subtitle_chosen (choices_in options.now)) line numbers.old ≡ Ok ((made.heads.items, made.notes.items), numbers.new)) }
{
    let mut heads = Vec::new(alloc);
    let Some(text) = subtitle_text(options) else {
        return Ok(Heads {
            heads,
            notes: Vec::new(alloc),
        });
    };
    let made = with_text(alloc, parts, Tag::Subtitle, line, text, line, numbers)?;
    heads.push(made.element)?;
    Ok(Heads {
        heads,
        notes: made.notes,
    })
}

/// The text of an option `subtitle`.
fn subtitle_text(options: &[Setting]) -> Option<&str>
    ensures { option_map (λ text. chars text.now) result ≡ subtitle_chosen (choices_in options.now) }
{
    for setting in options {
        if setting.option == OptionName::Subtitle
            && let OptionValue::Text(text) = &setting.value
        {
            return Some(text.as_str());
        }
    }
    None
}

/// A directive whose content is a text without inline markup (Docutils, Directives, 'Code', 'Raw Data Pass-Through').
///
/// The only refusal is [`AllocError`].
pub fn literal_block(
    alloc: Global,
    element: Tag,
    argument: &Argument,
    options: &[Setting],
    text: &str,
    line: usize,
) -> Result<Node>
    ensures { IfOk result (λ node. node ≡ literal_element element (given_in argument.now) (choices_in options.now) text.now line) }
{
    let mut attrs = preserving(alloc)?;
    set_options(alloc, &mut attrs, Holder::Body, options)?;
    set_argument(alloc, &mut attrs, argument)?;
    let nodes = text_nodes(alloc, text)?;
    Ok(element_of(element, attrs, nodes, line))
}

/// Sets the attributes that the argument of a directive gives.
#[tactic(auto, using(rst_text::proofs::TextLemmas::bytes_encoded, rst_text::proofs::TextLemmas::bytes_of_chars, crate::proofs::TextLemmas::listed_bytes))]
fn set_argument(alloc: Global, attrs: &mut Attrs, argument: &Argument) -> Result<()>
    ensures { IfOk result (λ _. attrs.new ≡ given_attrs (given_in argument.now) attrs.old) }
{
    match argument {
        Argument::Language(None) => set_code(alloc, attrs, None),
        Argument::Language(Some(word)) => set_code(alloc, attrs, Some(word.as_str())),
        Argument::Formats(formats) => attrs.set(Key::Format, text_value(alloc, formats.as_str())?),
        Argument::Classes { ids: Some(ids), .. } => attrs.set(
            Key::Classes,
            list_of_texts(alloc, ids)?,
        ),
        _ => Ok(()),
    }
}

/// Sets the classes of program code in a language, if one is named: `code`, the language as it is written, and those that were
/// set before.
fn set_code(alloc: Global, attrs: &mut Attrs, language: Option<&str>) -> Result<()>
    ensures { IfOk result (λ _. attrs.new ≡ code_attrs (option_map (λ word. word.now) language.entry) attrs.old) }
{
    let mut classes = Texts::new(alloc);
    classes.push(Text::from_str(alloc, "code")?)?;
    if let Some(word) = language {
        classes.push(Text::from_str(alloc, word)?)?;
    }
    if let Some(Value::List(own)) = attrs.remove(Key::Classes) {
        for class in own.as_slice() {
            classes.push(class.copy()?)?;
        }
    }
    attrs.set(Key::Classes, Value::List(classes))
}

/// An element that holds the text of a directive, with the classes and the name of its options. Its white characters stay if it
/// is a literal (Docutils, Directives, 'Rubric', 'Parsed Literal Block').
///
/// The only refusal is [`AllocError`].
pub fn with_options(
    alloc: Global,
    mut element: Node,
    literal: bool,
    options: &[Setting],
) -> Result<Node>
    ensures { IfOk result (λ node. node ≡ with_options literal (choices_in options.now) element) }
{
    if let Node::Element { attrs, .. } = &mut element {
        if literal {
            attrs.set(Key::XmlSpace, text_value(alloc, "preserve")?)?;
        }
        set_options(alloc, attrs, Holder::Body, options)?;
    }
    Ok(element)
}
