//! Runs of bytes that pass a test, stepped over sixteen at a time.
ghost use Rattle.std.specs.Prelude.{◌≡◌, ℕ, Bool, ◌≤◌, length, map};
ghost use Rattle.std.specs.Simd.Lanes.{mask_l};
ghost use Rattle.rst_text.specs.Runs.{fails_test, IsRun};

use std::simd::prelude::*;

/// How many bytes are tested at once.
const LANES: usize = 16;

/// A test of bytes.
pub trait ByteTest {
    /// Whether a byte passes.
    ghost passes: { ℕ → Bool };

    /// Whether a byte passes.
    fn passes(byte: u8) -> bool
        ensures { result ≡ passes byte };

    /// A bit for each byte, the lowest for the first, that is set where the byte fails.
    fn failing(bytes: u8x16) -> u64
        ensures { result ≡ mask_l (map (fails_test passes) bytes) };
}

/// The place after the bytes from a place on that pass a test.
pub fn run_end<T: ByteTest>(bytes: &[u8], place: usize) -> usize
    requires { place ≤ length bytes.now }
    ensures { IsRun T.passes bytes.now place result }
{
    let mut at = place;
    while LANES <= bytes.len() - at {
        let failing = T::failing(u8x16::from_slice(&bytes[at..]));
        if failing != 0 {
            return at + failing.trailing_zeros() as usize;
        }
        at += LANES;
    }
    if LANES <= bytes.len() {
        // The last bytes once more, without those before.
        let start = bytes.len() - LANES;
        let failing = T::failing(u8x16::from_slice(&bytes[start..])) >> (at - start);
        if failing != 0 {
            return at + failing.trailing_zeros() as usize;
        }
        return bytes.len();
    }
    while at < bytes.len() && T::passes(bytes[at]) {
        at += 1;
    }
    at
}
