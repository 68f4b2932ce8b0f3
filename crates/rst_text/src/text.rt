//! The front of a text.
ghost use Rattle.std.specs.Prelude.{◌≡◌, ◌≤◌, ◌++◌, ℕ, List, length, drop};
ghost use Rattle.std.specs.Str.{chars, IsUtf8};
ghost use Rattle.rst_text.specs.Block as spec;

/// How many spaces (U+0020) a text begins with, in characters, which are bytes here.
pub fn indentation(text: &str) -> usize
    ensures value { result ≡ spec.indentation (chars text.now) }
    ensures within { result ≤ length text.now }
{
    let mut n = 0;
    for c in text.chars() {
        if c != ' ' {
            break;
        }
        n += 1;
    }
    n
}

/// A text without its first `n` characters; of a shorter one nothing is left.
pub fn skip(text: &str, n: usize) -> &str
    ensures chars { chars result.now ≡ drop n (chars text.now) }
    ensures suffix { (prefix : List ℕ) × (text.now ≡ prefix ++ result.now) }
{
    let mut rest = text.chars();
    for _ in 0..n {
        let Some(_) = rest.next() else {
            break;
        };
    }
    rest.as_str()
}

/// A text without its first `n` bytes; of a shorter one nothing is left.
pub(crate) fn tail(text: &str, n: usize) -> &str
    requires { IsUtf8 (drop n text.now) }
    ensures { result.now ≡ drop n text.now }
{
    let skip = n.min(text.len());
    &text[skip..]
}
