//! The attributes that the options of directives give.
ghost use Rattle.std.specs.Prelude.{◌≡◌, IfOk};
ghost use Rattle.rst_markup_directives.specs.Options.{choices_in};
ghost use Rattle.rst_markup_directives.specs.Value.{meaning_of};
ghost use Rattle.rst_block_nodes.specs.Options.{with_choices, value_meant};

use super::values::{list_of_texts, text_value};
use rst_markup_directives::{Alignment, OptionName, OptionValue, Setting};
use rst_tree::{Attrs, Key, Result, Value};
use std::alloc::Global;

/// An element that gets attributes from the options of its directive.
#[derive(Clone, Copy)]
pub(crate) enum Holder {
    /// An image by itself.
    Image,
    /// The image of a figure.
    FigureImage,
    /// A figure.
    Figure,
    /// An admonition, a topic, a literal block, or a table, which alone has a width and an alignment.
    Body,
    /// A further element of one directive, which doesn't get the name.
    Further,
    /// The place of the entries of a table of contents.
    Entries,
}

/// Sets the attributes that the options of an element's directive ask for.
pub(crate) fn set_options(
    alloc: Global,
    attrs: &mut Attrs,
    holder: Holder,
    options: &[Setting],
) -> Result<()>
    ensures { IfOk result (λ _. attrs.new ≡ with_choices holder (choices_in options.now) attrs.old) }
{
    for setting in options {
        let key = match (holder, setting.option) {
            (Holder::Figure, OptionName::Align) => Key::Align,
            (Holder::Figure, OptionName::FigureWidth) => Key::Width,
            (Holder::Figure, OptionName::FigureClass) => Key::Classes,
            (Holder::Figure, _) => continue,
            (Holder::Entries, OptionName::Depth) => Key::Depth,
            (Holder::Entries, OptionName::Local) => Key::Local,
            (Holder::Entries, OptionName::Backlinks) => Key::Backlinks,
            (Holder::Entries, _) => continue,
            (_, OptionName::Class) => Key::Classes,
            (Holder::Further, _) => continue,
            (_, OptionName::Name) => Key::OwnName,
            (Holder::Body, OptionName::Width) => Key::Width,
            (Holder::Body, OptionName::Align) => Key::Align,
            (Holder::Body, _) => continue,
            (_, OptionName::Alt) => Key::Alt,
            (_, OptionName::Height) => Key::Height,
            (_, OptionName::Width) => Key::Width,
            (_, OptionName::Scale) => Key::Scale,
            (Holder::Image, OptionName::Align) => Key::Align,
            _ => continue,
        };
        attrs.set(key, value_of(alloc, &setting.value)?)?;
    }
    Ok(())
}

/// The value of an option as the value of an attribute: of a target, the text that it is written with.
#[tactic(auto, using(rst_text::proofs::TextLemmas::bytes_encoded, crate::proofs::TextLemmas::listed_bytes))]
fn value_of(alloc: Global, value: &OptionValue) -> Result<Value>
    ensures { IfOk result (λ meant. meant ≡ value_meant (meaning_of value.now)) }
{
    match value {
        OptionValue::Text(text) => text_value(alloc, text.as_str()),
        OptionValue::Measure(measure) => text_value(alloc, measure.as_str()),
        OptionValue::Number(number) => Ok(Value::Number(*number)),
        OptionValue::Place(Alignment::Top) => text_value(alloc, "top"),
        OptionValue::Place(Alignment::Middle) => text_value(alloc, "middle"),
        OptionValue::Place(Alignment::Bottom) => text_value(alloc, "bottom"),
        OptionValue::Place(Alignment::Left) => text_value(alloc, "left"),
        OptionValue::Place(Alignment::Center) => text_value(alloc, "center"),
        OptionValue::Place(Alignment::Right) => text_value(alloc, "right"),
        OptionValue::Classes(classes) => list_of_texts(alloc, classes),
        OptionValue::Link { source, .. } => text_value(alloc, source.as_str()),
        OptionValue::Name(name) => text_value(alloc, name.as_str()),
        OptionValue::Widths(widths) => text_value(alloc, widths.class()),
        OptionValue::Backlinks(backlinks) => text_value(alloc, backlinks.name()),
    }
}
