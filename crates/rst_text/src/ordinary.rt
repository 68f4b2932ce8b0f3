//! Ordinary bytes at the front of a text.
ghost use Rattle.rst_text.specs.Ordinary.{IsOrdinaryTo};

use super::runs::{ByteTest, run_end};
use std::simd::prelude::*;

/// Whether a byte is ordinary.
struct Ordinary;

impl ByteTest for Ordinary {
    ghost use Rattle.rst_text.specs.Ordinary.{is_ordinary};

    ghost passes = { is_ordinary };

    fn passes(byte: u8) -> bool {
        31 < byte && byte != 0xC2 && byte != 0xE2
    }

    #[inline(always)]
    fn failing(bytes: u8x16) -> u64 {
        let fails = bytes.simd_le(u8x16::splat(31))
            | bytes.simd_eq(u8x16::splat(0xC2))
            | bytes.simd_eq(u8x16::splat(0xE2));
        fails.to_bitmask()
    }
}

/// How many bytes at the front of a text are ordinary.
pub(crate) fn ordinary_len(text: &str) -> usize
    ensures { IsOrdinaryTo text.now result }
{
    run_end::<Ordinary>(text.as_bytes(), 0)
}
