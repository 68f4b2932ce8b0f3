//! The options of an option list's item.
ghost use Rattle.std.specs.Prelude.{◌≡◌, ◌+◌, ◌^◌, ◌<◌, IfOk, chars};
ghost use Rattle.rst_markup_lines.specs.OptionMarker as markers;
ghost use Rattle.rst_markup_lines.specs.Options as spec;
ghost use Rattle.rst_markup_lines.specs.Place as places;

use super::option::{Argument, Delimiter, OptionMark, OptionTail, option_at, option_tail};
use super::place::Characters;
use rst_text::skip;
use std::alloc::{AllocError, Global};

/// An option of an option list's item, and its argument, if it has one.
#[derive(Clone, Copy, Debug, PartialEq, Eq)]
pub struct ListedOption {
    /// The option without its argument.
    pub string: Characters,
    pub argument: Option<ListedArgument>,
}

/// An option's argument.
#[derive(Clone, Copy, Debug, PartialEq, Eq)]
pub struct ListedArgument {
    /// What is between the option and its argument.
    pub delimiter: Delimiter,
    /// The argument itself.
    pub text: Characters,
}

/// The `len` characters after `from` others.
fn place_of(from: usize, len: usize) -> Characters
    requires { from + len < 2 ^ 64 }
    ensures { result ≡ places.place_of from len }
{
    Characters {
        from,
        to: from + len,
    }
}

/// An argument, after `before` characters and its delimiter.
fn argument_after(before: usize, argument: Argument) -> ListedArgument
    requires { before + argument.len + 1 < 2 ^ 64 }
    ensures { result ≡ spec.argument_at before argument }
{
    let delimiter = argument.delimiter;
    let from = match delimiter {
        Delimiter::Nothing => before,
        Delimiter::Space | Delimiter::Equals => before + 1,
    };
    ListedArgument {
        delimiter,
        text: place_of(from, argument.len),
    }
}

/// An option, after `before` characters.
fn option_in(before: usize, option: OptionMark) -> ListedOption
    requires { before + option.string + markers.argument_width option.argument + 1 < 2 ^ 64 }
    ensures { result ≡ spec.option_in before option }
{
    let argument = match option.argument {
        Some(argument) => Some(argument_after(before + option.string, argument)),
        None => None,
    };
    ListedOption {
        string: place_of(before, option.string),
        argument,
    }
}

/// The options that a line begins with, in their order, by the places of their characters in the line (Markup
/// Specification, 'Option Lists'). One is listed if
/// a comma and a space, two or more spaces or the line's end follow it, and the first that isn't ends the list. So these
/// are all options of a line that [`option_marker`](super::option_marker) finds a marker in.
///
/// The only refusal is that memory runs out.
pub fn listed_options(alloc: Global, text: &str) -> Result<Vec<ListedOption>, AllocError>
    ensures options { IfOk result (λ options. options.items ≡ spec.options_in (chars text.now)) }
    ensures within { IfOk result (λ options. spec.AreOptionsIn (chars text.now) options.items) }
{
    let mut options = Vec::new(alloc);
    let mut rest = text;
    let mut before = 0;
    while let Some(option) = option_at(rest) {
        match option_tail(rest) {
            OptionTail::Wrong => return Ok(options),
            OptionTail::Last(_) => {
                options.push(option_in(before, option))?;
                return Ok(options);
            }
            OptionTail::Next(n) => {
                options.push(option_in(before, option))?;
                before += n;
                rest = skip(rest, n);
            }
        }
    }
    Ok(options)
}
