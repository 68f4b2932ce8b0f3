//! Quiet texts, which hold no markup and no escape.
ghost use Rattle.std.specs.Prelude.{◌≡◌, false};
ghost use Rattle.rst_inline_scan.specs.Quiet.{is_quiet, quiet};

use rst_text::{ByteTest, run_end};
use std::simd::prelude::*;

/// Whether a byte is quiet: no character that markup or an escape needs.
struct Quiet;

impl ByteTest for Quiet {
    ghost use Rattle.rst_inline_scan.specs.Quiet.{is_quiet};

    ghost passes = { is_quiet };

    fn passes(byte: u8) -> bool {
        !matches!(byte, b'*' | b'_' | b'`' | b'|' | b':' | b'\\')
    }

    #[inline(always)]
    fn failing(bytes: u8x16) -> u64 {
        let fails = bytes.simd_eq(u8x16::splat(b'*'))
            | bytes.simd_eq(u8x16::splat(b'_'))
            | bytes.simd_eq(u8x16::splat(b'`'))
            | bytes.simd_eq(u8x16::splat(b'|'))
            | bytes.simd_eq(u8x16::splat(b':'))
            | bytes.simd_eq(u8x16::splat(b'\\'));
        fails.to_bitmask()
    }
}

/// Whether the bytes are quiet: without the characters that markup or an escape needs and, where addresses are asked for, without `@`. Then
/// so is the text that they spell. Such a text is one plain piece, or none where it is empty ([`super::quiet_is_one_piece`]).
pub fn is_quiet(mail: bool, text: &[u8]) -> bool
    ensures { result ≡ quiet mail text.now }
{
    if mail {
        return is_unmarked(text) && !text.contains(&b'@');
    }
    is_unmarked(text)
}

/// Whether the bytes are without the characters that markup or an escape needs.
fn is_unmarked(text: &[u8]) -> bool
    ensures { result ≡ quiet false text.now }
{
    run_end::<Quiet>(text, 0) == text.len()
}
