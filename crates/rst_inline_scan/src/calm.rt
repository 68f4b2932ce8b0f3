//! Calm characters, which are stepped over: at them no markup begins but a name or a URI, and none of these ends.
ghost use Rattle.std.specs.Prelude.{◌≡◌, ℕ, ◌<◌, ◌≤◌, false, List, length};
ghost use Rattle.rst_inline_scan.specs.Calm.{AreBytesOf, is_of_name, IsScanned};

use rst_text::{ByteTest, is_joint, run_end};
use std::simd::prelude::*;

/// Whether a byte is calm: none that markup begins or a name ends with, and no backslash.
struct Calm;

impl ByteTest for Calm {
    ghost use Rattle.rst_inline_scan.specs.Calm.{is_calm};

    ghost passes = { is_calm };

    fn passes(byte: u8) -> bool {
        !matches!(byte, b'*' | b':' | b'[' | b'\\' | b'_' | b'`' | b'|')
    }

    #[inline(always)]
    fn failing(bytes: u8x16) -> u64 {
        let fails = bytes.simd_eq(u8x16::splat(b'*'))
            | bytes.simd_eq(u8x16::splat(b':'))
            | bytes.simd_eq(u8x16::splat(b'['))
            | bytes.simd_eq(u8x16::splat(b'\\'))
            | bytes.simd_eq(u8x16::splat(b'_'))
            | bytes.simd_eq(u8x16::splat(b'`'))
            | bytes.simd_eq(u8x16::splat(b'|'));
        fails.to_bitmask()
    }
}

/// Whether the name of a reference or the scheme of a URI may hold the byte.
fn is_of_name(byte: u8) -> bool
    ensures { result ≡ is_of_name byte }
{
    !byte.is_ascii() || byte.is_ascii_alphanumeric() || is_joint(char::from(byte))
}

/// The place after the bytes from the place on that are calm, or underscores before a letter or a digit, but not inside a name; and
/// whether the character there is escaped, where `escaped` gives whether the one at `place` is. Up to `searched` earlier steps have
/// looked, so there nothing is looked for again.
pub(crate) fn step(bytes: &[u8], place: usize, escaped: bool, searched: &mut usize) -> (usize, bool)
    requires { place < length bytes.now }
    ensures above { place ≤ result.0 }
    ensures over { (text : List ℕ) (from : ℕ) → AreBytesOf text bytes.now → IsScanned false false text from place escaped → IsScanned false false text from result.0 result.1 }
{
    if place < *searched {
        return (place, escaped);
    }
    let mut at = run_end::<Calm>(bytes, place);
    while at + 1 < bytes.len() && bytes[at] == b'_' && bytes[at + 1].is_ascii_alphanumeric() {
        at = run_end::<Calm>(bytes, at + 1);
    }
    *searched = at;
    if at == bytes.len() {
        return (at, escaped & (place == at));
    }
    let mut start = at;
    while place < start && is_of_name(bytes[start - 1]) {
        start -= 1;
    }
    (start, escaped & (place == start))
}
