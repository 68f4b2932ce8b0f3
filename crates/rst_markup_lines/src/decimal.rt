//! Decimal numbers.
ghost use Rattle.std.specs.Prelude.{◌≡◌, ◌≤◌, chars};
ghost use Rattle.rst_markup_lines.specs.Decimal as spec;

use super::text::{after_first, first_char};

/// The value of an ASCII digit; of another character it is 0.
#[tactic(auto, unfolding(crate::specs::Class::is_in))]
fn digit(c: char) -> u64
    ensures value { result ≡ spec.digit c }
    ensures small { result ≤ 9 }
{
    match c {
        '0'..='9' => c as u64 - 48,
        _ => 0,
    }
}

/// The number that the first `n` characters of a text are in decimal.
pub fn number_of(n: usize, text: &str) -> u64
    requires { n ≤ 9 }
    ensures { result ≡ spec.number_of n (chars text.now) }
{
    let mut rest = text;
    let mut value = 0;
    for k in 0..n {
        let Some(c) = first_char(rest) else {
            break;
        };
        value = value * 10 + digit(c);
        rest = after_first(rest);
    }
    value
}
