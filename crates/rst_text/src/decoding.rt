//! Bytes as text.
ghost use Rattle.std.specs.Prelude.{◌≡◌, MatchResult, Some};
ghost use Rattle.std.specs.Str.{chars};
ghost use Rattle.rst_text.specs.Text.{text_of, IsWrong, Decodes};

use super::fault::TextFault;
use simdutf8::compat::from_utf8;
use std::alloc::Global;

/// The text whose UTF-8 the bytes are, without one byte order mark at its front, as the bytes encode it.
///
/// The only refusal is [`TextFault::NotUtf8`], where the bytes are no UTF-8, with the length in bytes of their longest front that
/// is (a byte order mark counts).
pub fn text_in(bytes: &[u8]) -> Result<&str, TextFault>
    ensures { MatchResult result (λ text. text_of bytes.now ≡ Some (chars text.now)) (λ fault. IsWrong bytes.now fault) }
{
    match from_utf8(bytes) {
        Ok(text) => Ok(text.strip_prefix('\u{FEFF}').unwrap_or(text)),
        Err(error) => Err(TextFault::NotUtf8 {
            at: error.valid_up_to(),
        }),
    }
}

/// The text of the bytes as a `String`.
///
/// [`TextFault::NotUtf8`] as in [`text_in`]; [`TextFault::NoMemory`] where the text has no room.
pub fn decode(alloc: Global, bytes: &[u8]) -> Result<String, TextFault>
    ensures { Decodes bytes.now result }
{
    let text = text_in(bytes)?;
    Ok(String::from_str(alloc, text)?)
}
