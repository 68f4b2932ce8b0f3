//! Texts as values of attributes.
ghost use Rattle.std.specs.Prelude.{◌≡◌, IfOk};
ghost use Rattle.rst_text.specs.Names.{name_in};
ghost use Rattle.std.specs.Cow.{cow_str_bytes};
ghost use Rattle.rst_tree.specs.declared.attrs.Value.TheVariants.{Text as TextValue};
ghost use Rattle.rst_block_nodes.specs.Values.{unescaped, list_of_texts};

use rst_inline::unescape;
use rst_text::name_of;
use rst_tree::{Result, Text, Texts, Value};
use std::alloc::Global;
use std::borrow::CowStr;

/// A value that is a text.
pub(crate) fn text_value(alloc: Global, text: &str) -> Result<Value>
    ensures { IfOk result (λ value. value ≡ TextValue text.now) }
{
    let text = Text::from_str(alloc, text)?;
    Ok(Value::Text(text))
}

/// A value that is the name that a text gives.
#[tactic(auto, using(rst_text::proofs::TextLemmas::bytes_of_chars))]
pub(crate) fn name_value(alloc: Global, text: &str) -> Result<Value>
    ensures { IfOk result (λ value. value ≡ TextValue (name_in text.now)) }
{
    let name = name_of(alloc, text)?;
    Ok(Value::Text(Text::new(name)))
}

/// A text without its escapes. Most texts have none, and aren't copied for them.
#[tactic(auto, using(rst_text::proofs::TextLemmas::bytes_of_chars))]
pub(crate) fn unescaped(alloc: Global, text: &str) -> Result<CowStr<'_, Global>>
    ensures { IfOk result (λ plain. cow_str_bytes plain ≡ unescaped text.now) }
{
    if !text.as_bytes().contains(&b'\\') {
        return Ok(CowStr::Borrowed(text));
    }
    let plain = unescape(alloc, text)?;
    Ok(CowStr::Owned(plain))
}

/// A value that lists texts.
pub(crate) fn list_of_texts(alloc: Global, texts: &[String]) -> Result<Value>
    ensures { IfOk result (λ value. value ≡ list_of_texts texts.now) }
{
    let mut list = Texts::new(alloc);
    for text in texts {
        list.push(Text::from_str(alloc, text.as_str())?)?;
    }
    Ok(Value::List(list))
}
