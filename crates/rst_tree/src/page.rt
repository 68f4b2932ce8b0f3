//! What is written piece by piece to a writer that may fail, gathered in a page: after a failure nothing more is written.
ghost use Rattle.std.specs.Prelude.{◌≡◌, ◌++◌, ◌+◌, ◌*◌, ◌≤◌, [], false, length, replicate, take, IsTrue};
ghost use Rattle.rst_text.specs.Counted.{has_failed};

use crate::fault::PrintFault;
use crate::placing::{place, place_line};
use rst_text::{Counted, WriteCall};

/// The indentation of this many levels is written at once.
pub(crate) const FEW: usize = 16;

/// Their indentation.
pub(crate) const SPACES: [u8; 64] = [b' '; 64];

/// What is gathered on its way to a writer.
#[derive(Drop)]
pub struct Page<const N: usize> {
    bytes: [u8; N],
    /// How many of the bytes are gathered; those after them are left from before.
    len: usize,
    /// How many bytes of the text the writer took, or the largest `usize` if they are more.
    taken: usize,
    ghost fits: { len ≤ N },
}

impl<const N: usize> Page<N> {
    ghost use Rattle.rst_tree.specs.Sends.{page_bytes, IsTaken, Sends, Turns};
    ghost use Rattle.rst_tree.specs.Faults.{IsEnd};
    ghost use Rattle.rst_tree.specs.Print.{line_len, printed_line};

    /// An empty page of a text of which nothing was written.
    pub fn new() -> Page<N>
        ensures page_bytes { page_bytes result ≡ [] }
        ensures taken { result.taken ≡ 0 }
    {
        Page {
            bytes: [0; N],
            len: 0,
            taken: 0,
        }
    }

    /// Gathers all of the bytes, unless a write has failed.
    #[inline(always)]
    pub fn put<W: WriteCall>(&mut self, out: &mut Counted<W>, bytes: &[u8])
        ensures { Sends W.call_takes W.contents bytes.now out.old self.old out.new self.new }
    {
        if out.failed() {
            return;
        }
        if self.len + bytes.len() > N {
            self.put_over(out, bytes);
        } else {
            self.gather(bytes);
        }
    }

    /// Gathers the bytes, for which there is room after what the page holds.
    #[inline(always)]
    fn gather(&mut self, bytes: &[u8])
        requires { self.old.len + length bytes.now ≤ N }
        ensures page_bytes { page_bytes self.new ≡ page_bytes self.old ++ bytes.now }
        ensures len { self.new.len ≡ self.old.len + length bytes.now }
        ensures taken { self.new.taken ≡ self.old.taken }
    {
        place(&mut self.bytes[..], self.len, bytes);
        self.len += bytes.len();
    }

    /// Whether there is room for this many bytes after what the page holds.
    #[inline(always)]
    pub(crate) fn has_room(&self, bytes: usize) -> bool
        ensures { IsTrue result → self.now.len + bytes ≤ N }
    {
        bytes <= N - self.len
    }

    /// Gathers the indentation of one of the first levels and three texts after it, where there is room for that of the last of them.
    #[inline(always)]
    pub(crate) fn gather_indented(
        &mut self,
        level: usize,
        first: &[u8],
        second: &[u8],
        third: &[u8],
    )
        requires few { level ≤ 16 }
        requires room { self.old.len + (length second.now + (64 + length first.now + length third.now)) ≤ N }
        ensures page_bytes { page_bytes self.new ≡ page_bytes self.old ++ replicate (4 * level) 32 ++ first.now ++ second.now ++ third.now }
        ensures taken { self.new.taken ≡ self.old.taken }
    {
        self.gather_spaces(4 * level);
        self.gather(first);
        self.gather(second);
        self.gather(third);
    }

    /// Gathers the first line of a text after the indentation of one of the first levels, where there is room for that of the last of
    /// them, for the whole text and for some bytes more. Gives how many bytes the line has without its end.
    #[inline(always)]
    pub(crate) fn gather_line(&mut self, level: usize, text: &[u8]) -> usize
        requires few { level ≤ 16 }
        requires room { self.old.len + (length text.now + 81) ≤ N }
        ensures line { result ≡ line_len text.now }
        ensures page_bytes { page_bytes self.new ≡ page_bytes self.old ++ printed_line (level, take result text.now) }
        ensures taken { self.new.taken ≡ self.old.taken }
    {
        self.gather_spaces(4 * level);
        let len = place_line(&mut self.bytes[..], self.len, text);
        self.len += len;
        self.gather(b"\n");
        len
    }

    /// Gathers this many spaces, where there is room for all of them: so many are copied, which takes the fewest steps.
    #[inline(always)]
    fn gather_spaces(&mut self, count: usize)
        requires few { count ≤ 64 }
        requires room { self.old.len + 64 ≤ N }
        ensures page_bytes { page_bytes self.new ≡ page_bytes self.old ++ replicate count 32 }
        ensures len { self.new.len ≡ self.old.len + count }
        ensures taken { self.new.taken ≡ self.old.taken }
    {
        let end = self.len + SPACES.len();
        let all = &mut self.bytes[..];
        all[self.len..end].copy_from_slice(&SPACES);
        self.len += count;
    }

    /// The same as `put`, where the bytes don't fit after what the page holds: that is written first.
    #[cold]
    #[inline(never)]
    fn put_over<W: WriteCall>(&mut self, out: &mut Counted<W>, bytes: &[u8])
        ensures { Sends W.call_takes W.contents bytes.now out.old self.old out.new self.new }
    {
        self.turn(out);
        if out.failed() {
            return;
        }
        if self.len + bytes.len() > N {
            let count = Self::write(out, bytes);
            self.taken = self.taken.saturating_add(count);
        } else {
            self.gather(bytes);
        }
    }

    /// Writes what the page holds, unless a write has failed.
    pub fn turn<W: WriteCall>(&mut self, out: &mut Counted<W>)
        ensures { Turns W.call_takes W.contents out.old self.old out.new self.new }
    {
        if out.failed() {
            return;
        }
        let count = Self::write(out, &self.bytes[..self.len]);
        self.taken = self.taken.saturating_add(count);
        self.len = 0;
    }

    /// How the printing of a text ends that has reached the writer, or at which a write has failed.
    pub fn end(&self, failed: bool) -> Result<(), PrintFault>
        ensures { IsEnd self.now.taken failed result }
    {
        if failed {
            Err(PrintFault::Write { done: self.taken })
        } else {
            Ok(())
        }
    }

    /// Writes the bytes to a writer that hasn't failed. Gives how many of them were taken: all of them, unless a write failed.
    fn write<W: WriteCall>(out: &mut Counted<W>, bytes: &[u8]) -> usize
        requires { has_failed out.old ≡ false }
        ensures { IsTaken W.call_takes W.contents out.old out.new bytes.now result }
    {
        match out.write_all(bytes) {
            Ok(()) => bytes.len(),
            Err(done) => done,
        }
    }
}
