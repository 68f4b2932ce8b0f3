//! Bytes copied to a place among others. Most texts are short: two copies of a fixed size, laid over each other, take fewer steps than
//! a call.
ghost use Rattle.std.specs.Prelude.{◌≡◌, ◌++◌, ◌+◌, ◌≤◌, length, take};
ghost use Rattle.rst_tree.specs.Print.{line_len};

use rst_text::ByteTest;
use std::simd::Simd;
use std::simd::prelude::*;

/// How many bytes of a line are copied and looked at at once.
pub(crate) const LANES: usize = 16;

/// Whether a byte ends no line.
pub(crate) struct OfLine;

impl ByteTest for OfLine {
    ghost use Rattle.rst_tree.specs.Print.{is_of_line};

    ghost passes = { is_of_line };

    fn passes(byte: u8) -> bool {
        byte != b'\n'
    }

    #[inline(always)]
    fn failing(bytes: u8x16) -> u64 {
        bytes.simd_eq(u8x16::splat(b'\n')).to_bitmask()
    }
}

/// Copies the first `N` bytes of a text to a place.
#[inline(always)]
fn place_first<const N: usize>(all: &mut [u8], at: usize, text: &[u8])
    requires { (N ≤ length text.now) × (at + N ≤ length all.old) }
    ensures placed { take (at + N) all.new ≡ take at all.old ++ take N text.now }
    ensures len { length all.new ≡ length all.old }
{
    Simd::<u8, N>::from_slice(text).copy_to_slice(&mut all[at..]);
}

/// Copies a text to a place: its first `N` bytes and its last.
#[inline(always)]
fn place_ends<const N: usize>(all: &mut [u8], at: usize, text: &[u8])
    requires covers { (N ≤ length text.now) × (length text.now ≤ N + N) }
    requires room { at + length text.now ≤ length all.old }
    ensures placed { take (at + length text.now) all.new ≡ take at all.old ++ text.now }
    ensures len { length all.new ≡ length all.old }
{
    let last = text.len() - N;
    place_first::<N>(all, at, text);
    place_first::<N>(all, at + last, &text[last..]);
}

/// Copies a text to a place.
#[inline(always)]
pub(crate) fn place(all: &mut [u8], at: usize, text: &[u8])
    requires room { at + length text.now ≤ length all.old }
    ensures placed { take (at + length text.now) all.new ≡ take at all.old ++ text.now }
    ensures len { length all.new ≡ length all.old }
{
    match text.len() {
        0 => {}
        1 => place_first::<1>(all, at, text),
        2..=3 => place_ends::<2>(all, at, text),
        4..=7 => place_ends::<4>(all, at, text),
        8..=16 => place_ends::<8>(all, at, text),
        len => all[at..at + len].copy_from_slice(text),
    }
}

/// Copies the first line of a text, without its end, to a place where there is room for the whole text and for sixteen bytes more. Gives
/// how many bytes the line has. As they are copied, they are looked at: sixteen at a time, and the last once they are in their place.
#[inline(always)]
pub(crate) fn place_line(all: &mut [u8], at: usize, text: &[u8]) -> usize
    requires room { at + (length text.now + 16) ≤ length all.old }
    ensures line { result ≡ line_len text.now }
    ensures placed { take (at + result) all.new ≡ take at all.old ++ take result text.now }
    ensures len { length all.new ≡ length all.old }
{
    let mut done = 0;
    while LANES <= text.len() - done {
        let lanes = u8x16::from_slice(&text[done..]);
        lanes.copy_to_slice(&mut all[at + done..]);
        let ends = OfLine::failing(lanes);
        if ends != 0 {
            return done + ends.trailing_zeros() as usize;
        }
        done += LANES;
    }
    let rest = &text[done..];
    place(all, at + done, rest);
    let ends = OfLine::failing(u8x16::from_slice(&all[at + done..]));
    done + rest.len().min(ends.trailing_zeros() as usize)
}
