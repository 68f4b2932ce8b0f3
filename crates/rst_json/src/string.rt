//! Strings and numbers.

ghost use Rattle.std.specs.Prelude.{◌≡◌, ◌<◌, decimal};
ghost use Rattle.std.specs.List.{list_any};
ghost use Rattle.rst_json.specs.Json.{Adds, json_byte, hex, needs_json_escape, json_string};

use itoa::Buffer;
use rst_tree::Result;

/// Puts a number in decimal digits.
pub fn put_number(number: u64, out: &mut Vec<u8>) -> Result<()>
    ensures { Adds out.old.items out.new.items (decimal number) result }
{
    let mut buffer = Buffer::new();
    out.extend_from_slice(buffer.format(number).as_bytes())?;
    Ok(())
}

/// Puts a text as a string. Mostly no byte is escaped, and it is put at once.
pub fn put_string(text: &[u8], out: &mut Vec<u8>) -> Result<()>
    ensures { Adds out.old.items out.new.items (json_string text.now) result }
{
    out.push(b'"')?;
    if has_escaped(text) {
        for byte in text {
            put_escaped(*byte, out)?;
        }
    } else {
        out.extend_from_slice(text)?;
    }
    out.push(b'"')?;
    Ok(())
}

/// Whether a byte of a string is escaped: the quote, the backslash and control characters.
fn needs_json_escape(byte: u8) -> bool
    ensures { result ≡ needs_json_escape byte }
{
    byte < 32 || byte == b'"' || byte == b'\\'
}

/// Whether a text has a byte that is escaped. None is looked at by itself, so that many are at once.
#[inline(never)]
fn has_escaped(text: &[u8]) -> bool
    ensures { result ≡ list_any needs_json_escape text.now }
{
    let mut found = false;
    for byte in text {
        found |= needs_json_escape(*byte);
    }
    found
}

/// Puts a byte of a string.
fn put_escaped(byte: u8, out: &mut Vec<u8>) -> Result<()>
    ensures { Adds out.old.items out.new.items (json_byte byte) result }
{
    match byte {
        b'"' => out.extend_from_slice(b"\\\"")?,
        b'\\' => out.extend_from_slice(b"\\\\")?,
        b'\n' => out.extend_from_slice(b"\\n")?,
        0..=31 => out.extend_from_slice(&[
            b'\\',
            b'u',
            b'0',
            b'0',
            b'0' + byte / 16,
            hex(byte % 16),
        ])?,
        _ => out.push(byte)?,
    }
    Ok(())
}

/// The hexadecimal digit of a number below 16.
fn hex(digit: u8) -> u8
    requires { digit < 16 }
    ensures { result ≡ hex digit }
{
    if digit < 10 {
        b'0' + digit
    } else {
        b'a' + digit - 10
    }
}
