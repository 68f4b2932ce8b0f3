//! Escapes by backslashes.
ghost use Rattle.std.specs.Prelude.{◌≡◌, IfOk};
ghost use Rattle.rst_text.specs.Escapes.{escapes, unescaped};

use super::characters::is_white;
use std::alloc::{AllocError, Global};

/// Whether the character after `c` is escaped, where `c` is itself escaped or not.
pub fn escapes(c: char, escaped: bool) -> bool
    ensures { result ≡ escapes c escaped }
{
    c == '\\' && !escaped
}

/// The characters without their escapes: a backslash vanishes, and white after one; any other character after one stays
/// (Markup Specification, 'Escaping Mechanism').
pub fn unescaped(alloc: Global, text: &[char]) -> Result<Vec<char>, AllocError>
    ensures { IfOk result (λ out. out.items ≡ unescaped text.now) }
{
    if !text.contains(&'\\') {
        return Vec::from_slice(alloc, text);
    }
    let mut out = Vec::with_capacity(alloc, text.len())?;
    let mut escaped = false;
    for letter in text {
        if *letter == '\\' && !escaped {
            escaped = true;
        } else {
            if !(escaped && is_white(*letter)) {
                out.push(*letter)?;
            }
            escaped = false;
        }
    }
    Ok(out)
}
