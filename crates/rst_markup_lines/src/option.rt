//! Option markers.
ghost use Rattle.std.specs.Prelude.{◌≡◌, ◌≤◌, ◌<◌, ◌+◌, ◌-◌, ◌^◌, IfSome, chars};
ghost use Rattle.rst_markup_lines.specs.OptionMarker as spec;

use super::class::{Class, run};
use super::marker::{Marker, marker_of};
use super::text::{begins_with, first_char};
use rst_text::{is_letter, skip};

/// What is between an option and its argument.
#[derive(Clone, Copy, Debug, PartialEq, Eq)]
pub enum Delimiter {
    Nothing,
    Space,
    Equals,
}

/// An option at the front of a text: how many characters it has without its argument, and the argument, if it has one:
/// what precedes it, and how many characters it has.
#[derive(Clone, Copy, Debug, PartialEq, Eq)]
pub(crate) struct OptionMark {
    pub string: usize,
    pub argument: Option<Argument>,
}

/// An option's argument.
#[derive(Clone, Copy, Debug, PartialEq, Eq)]
pub(crate) struct Argument {
    pub delimiter: Delimiter,
    pub len: usize,
}

/// Whether a text begins with an ASCII letter or digit.
fn begins_ascii_alphanumeric(text: &str) -> bool
    ensures { result ≡ spec.begins_ascii_alphanumeric (chars text.now) }
{
    match first_char(text) {
        Some(c) => c.is_ascii_alphanumeric(),
        None => false,
    }
}

/// The argument after a delimiter of a character, or of none. It is a letter and alphanumerics, `_` and `-` after it, or something
/// in angle brackets.
#[tactic(auto, unfolding(crate::specs::OptionMarker::argument_after, crate::specs::OptionMarker::argument_len))]
fn argument_after(delimiter: Delimiter, text: &str) -> Option<Argument>
    ensures value { result ≡ spec.argument_after delimiter (chars text.now) }
    ensures short { IfSome result (λ argument. argument.len < 2 ^ 63 + 2) }
{
    let len = match first_char(text) {
        Some(c) if is_letter(c) => run(Class::Option, text),
        Some('<') => {
            let inside = run(Class::Bracketed, skip(text, 1));
            if inside == 0 || !begins_with('>', skip(text, inside + 1)) {
                0
            } else {
                inside + 2
            }
        }
        _ => 0,
    };
    if len == 0 {
        return None;
    }
    Some(Argument { delimiter, len })
}

/// The option at the front of a text that begins with a mark of `n` characters, which a name of any length follows.
#[tactic(auto, unfolding(crate::specs::OptionMarker::long_option, crate::specs::OptionMarker::long_argument))]
fn long_option(n: usize, text: &str) -> Option<OptionMark>
    requires { n ≤ 2 }
    ensures value { result ≡ spec.long_option n (chars text.now) }
    ensures short { IfSome result (λ option. option.string < 2 ^ 63 + 2) }
{
    let name = skip(text, n);
    if !begins_ascii_alphanumeric(name) {
        return None;
    }
    let string = n + 1 + run(Class::Option, skip(name, 1));
    let following = skip(text, string);
    let argument = if begins_with(' ', following) {
        argument_after(Delimiter::Space, skip(following, 1))
    } else if begins_with('=', following) {
        argument_after(Delimiter::Equals, skip(following, 1))
    } else {
        None
    };
    Some(OptionMark { string, argument })
}

/// The option at the front of a text: `-` or `+` and a character, or `--` or `/` and a name, and maybe an argument.
#[tactic(auto, unfolding(crate::specs::OptionMarker::option_at, crate::specs::OptionMarker::short_option, crate::specs::OptionMarker::short_argument))]
pub(crate) fn option_at(text: &str) -> Option<OptionMark>
    ensures value { result ≡ spec.option_at (chars text.now) }
    ensures short { IfSome result (λ option. option.string < 2 ^ 63 + 2) }
{
    if begins_with('/', text) {
        return long_option(1, text);
    }
    if begins_with('-', text) && begins_with('-', skip(text, 1)) {
        return long_option(2, text);
    }
    if !(begins_with('-', text) || begins_with('+', text))
        || !begins_ascii_alphanumeric(skip(text, 1))
    {
        return None;
    }
    let following = skip(text, 2);
    let argument = if begins_with(' ', following) {
        argument_after(Delimiter::Space, skip(following, 1))
    } else {
        argument_after(Delimiter::Nothing, following)
    };
    Some(OptionMark {
        string: 2,
        argument,
    })
}

/// How many characters an argument has with what precedes it.
fn argument_width(argument: Option<Argument>) -> usize
    requires { IfSome argument (λ a. a.len < 2 ^ 63 + 2) }
    ensures value { result ≡ spec.argument_width argument }
    ensures short { result < 2 ^ 63 + 3 }
{
    match argument {
        None => 0,
        Some(
            Argument {
                delimiter: Delimiter::Nothing,
                len,
            },
        ) => len,
        Some(Argument { len, .. }) => len + 1,
    }
}

/// What follows an option.
#[derive(Clone, Copy, Debug, PartialEq, Eq)]
pub(crate) enum OptionTail {
    /// Nothing, or two or more spaces: the option is the last, and the marker it makes.
    Last(Marker),
    /// A comma and a space: how many characters come before the next option.
    Next(usize),
    /// Something else, or there is no option.
    Wrong,
}

/// What follows the option at the front of a text.
#[tactic(auto, unfolding(crate::specs::OptionMarker::option_tail, crate::specs::OptionMarker::tail_at))]
pub(crate) fn option_tail(text: &str) -> OptionTail
    ensures { result ≡ spec.option_tail (chars text.now) }
{
    let Some(option) = option_at(text) else {
        return OptionTail::Wrong;
    };
    let n = option.string + argument_width(option.argument);
    let following = skip(text, n);
    let more = skip(following, 1);
    if begins_with(',', following) && begins_with(' ', more) {
        return OptionTail::Next(n + 2);
    }
    if begins_with(' ', following) && !begins_with(' ', more) {
        return OptionTail::Wrong;
    }
    match marker_of(n, text) {
        Some(marker) => OptionTail::Last(marker),
        None => OptionTail::Wrong,
    }
}

/// The marker at the front of a line that options joined by a comma and a space make, with two or more spaces or the
/// line's end after them.
pub fn option_marker(text: &str) -> Option<Marker>
    ensures { result ≡ spec.option_marker (chars text.now) }
{
    let mut rest = text;
    let mut before = 0;
    loop {
        match option_tail(rest) {
            OptionTail::Last(marker) => {
                return Some(Marker {
                    cut: before + marker.cut,
                    bare: marker.bare,
                });
            }
            OptionTail::Next(n) => {
                before += n;
                rest = skip(rest, n);
            }
            OptionTail::Wrong => return None,
        }
    }
}
