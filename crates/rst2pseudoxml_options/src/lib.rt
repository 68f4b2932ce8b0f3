//! The argument words of the program: the settings that they choose, and the source.
#![tactic(auto)]

ghost use Rattle.std.specs.Prelude.{map, string_bytes};
ghost use Rattle.rst2pseudoxml_options.specs.Options.{Chooses};

mod choice;
mod command;
mod fault;
mod format;
mod found;
pub mod rows;
mod tree;
mod tree_command;
mod values;

use choice::choice_of;
pub use fault::OptionFault;
pub use format::Format;
use found::{matches_of, text_of};
use rst_settings::Settings;
use std::alloc::Global;
pub use tree::tree_options;

/// The settings that the words choose, and SOURCE as written, if they name one; the words are those after the
/// program's name.
///
/// Faults are looked for in the order [`OptionFault::Usage`], [`OptionFault::BadLevel`], [`OptionFault::BadTab`],
/// [`OptionFault::BadLimit`], [`OptionFault::TwoLevels`]; [`OptionFault::NoMemory`] comes where a growth is refused.
// What the description of the options takes is off the stack while a document is read.
#[inline(never)]
pub fn options(alloc: Global, words: &[String]) -> Result<(Settings, Option<String>), OptionFault>
    ensures { Chooses (map string_bytes words.now) result }
{
    let matches = matches_of(alloc, words)?;
    let source = text_of(&matches, "source");
    if source.is_some_and(|text| text.as_bytes().first() == Some(&b'-')) {
        return Err(OptionFault::Usage);
    }
    let settings = choice_of(&matches)?;
    let source = match source {
        Some(text) => Some(String::from_str(alloc, text)?),
        None => None,
    };
    Ok((settings, source))
}
