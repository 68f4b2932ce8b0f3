//! The URIs of e-mail addresses.
ghost use Rattle.std.specs.Prelude.{◌≡◌, chars, option_map, IfOk};
ghost use Rattle.rst_text.specs.Text.{chars_of};
ghost use Rattle.rst_inline.specs.Mail.{uri_of_address, mailto};

use rst_inline_scan::is_address;
use rst_text::characters_of;
use std::alloc::{AllocError, Global};

/// The URI of an address, which is without escapes.
pub(crate) fn uri_of_address(alloc: Global, address: &str) -> Result<String, AllocError>
    ensures { IfOk result (λ uri. chars_of uri ≡ uri_of_address (chars address.now)) }
{
    format!(in alloc; "mailto:{address}")
}

/// The URI of a text, if it is an e-mail address as a whole. The text is without escapes.
///
/// The only refusal is [`AllocError`].
pub fn mailto(alloc: Global, text: &str) -> Result<Option<String>, AllocError>
    ensures { IfOk result (λ uri. option_map chars_of uri ≡ mailto (chars text.now)) }
{
    if !text.as_bytes().contains(&b'@') {
        return Ok(None);
    }
    let characters = characters_of(alloc, text)?;
    if !is_address(&characters) {
        return Ok(None);
    }
    Ok(Some(uri_of_address(alloc, text)?))
}
