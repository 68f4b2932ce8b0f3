//! Readers and writers that keep whether they failed.
ghost use Rattle.std.specs.Prelude.{◌≡◌, ◌∷◌, [], ℕ, List, Option, ⊤, false};
ghost use Rattle.std.specs.Result.{result_ok};
ghost use Rattle.std.specs.Io.{ReadsAtMost, WritesAtMost};
ghost use Rattle.std.specs.Io.KnownBytes.{ReadConsumes, WriteAppends};
ghost use Rattle.rst_text.specs.Counted.{inner_of, has_failed, between, Reads, Writes, IsWriteResult, Puts, Written, taken_of};

use std::io::{self, Read, Write};

/// A reader with a relation that only a call of it can bring about: what is proved for every such relation holds of
/// one call. Each reader is one.
pub trait ReadCall: Read {
    /// The reader before a call, how many bytes it gave, or that it failed, the bytes that were then in the buffer,
    /// and the reader after it.
    ghost call_gives: { Self → Option ℕ → List ℕ → Self → Type 0 } = { λ _ _ _ _. ⊤ };

    /// One call of `read`.
    fn call_read(&mut self, buf: &mut [u8]) -> io::Result<usize>
        ensures bound { ReadsAtMost result buf.new }
        ensures bytes { ReadConsumes (Self.remaining self.old) (Self.remaining self.new) result buf.new }
        ensures call { call_gives self.old (result_ok result) buf.new self.new };
}

impl<R: Read> ReadCall for R {
    fn call_read(&mut self, buf: &mut [u8]) -> io::Result<usize> {
        self.read(buf)
    }
}

/// A writer with a relation that only a call of it can bring about, as [`ReadCall`]. Each writer is one.
pub trait WriteCall: Write {
    /// The writer before a call, how many bytes it took, or that it failed, the bytes that it was given, and the
    /// writer after it.
    ghost call_takes: { Self → Option ℕ → List ℕ → Self → Type 0 } = { λ _ _ _ _. ⊤ };

    /// One call of `write`.
    fn call_write(&mut self, buf: &[u8]) -> io::Result<usize>
        ensures bound { WritesAtMost result buf.now }
        ensures bytes { WriteAppends (Self.contents self.old) (Self.contents self.new) result buf.now }
        ensures call { call_takes self.old (result_ok result) buf.now self.new };
}

impl<W: Write> WriteCall for W {
    fn call_write(&mut self, buf: &[u8]) -> io::Result<usize> {
        self.write(buf)
    }
}

/// A reader or a writer, and whether one of its calls has failed.
#[derive(Drop)]
pub struct Counted<T> {
    inner: T,
    failed: bool,
}

impl<T> Counted<T> {
    /// The reader or writer, of which no call has failed yet.
    pub fn of(inner: T) -> Counted<T>
        ensures inner { inner_of result ≡ inner }
        ensures failed { has_failed result ≡ false }
    {
        Counted {
            inner,
            failed: false,
        }
    }

    /// The reader or writer as the calls so far left it.
    pub fn inner(&self) -> &T
        ensures { result.now ≡ inner_of self.now }
    {
        &self.inner
    }

    /// Whether a call has answered `None`; once true it stays so.
    pub fn failed(&self) -> bool
        ensures { result ≡ has_failed self.now }
    {
        self.failed
    }
}

impl<R: ReadCall> Counted<R> {
    /// One read: how many bytes it put at the front of `buf`, or `None` where it failed.
    pub fn read(&mut self, buf: &mut [u8]) -> Option<usize>
        ensures bytes { Reads (between R.remaining self.old self.new) result buf.new }
        ensures call { R.call_gives (inner_of self.old) result buf.new (inner_of self.new) }
    {
        match self.inner.call_read(buf) {
            Ok(n) => Some(n),
            Err(_) => {
                self.failed = true;
                None
            }
        }
    }
}

impl<W: WriteCall> Counted<W> {
    /// One write: how many bytes of the front of `buf` it took, or `None` where it failed or took none of some.
    pub fn write(&mut self, buf: &[u8]) -> Option<usize>
        ensures bytes { Writes (between W.contents self.old self.new) result buf.now }
        ensures call { IsWriteResult (λ answer. W.call_takes (inner_of self.old) answer buf.now (inner_of self.new)) result buf.now }
    {
        match self.inner.call_write(buf) {
            Ok(n) if n > 0 || buf.is_empty() => Some(n),
            _ => {
                self.failed = true;
                None
            }
        }
    }

    /// Writes all of the bytes, in as many writes as it takes: none where there are no bytes. An `Err` gives how many of
    /// them the writer took before a write failed, or took none of the others.
    pub fn write_all(&mut self, bytes: &[u8]) -> Result<(), usize>
        ensures bytes { Puts (between W.contents self.old self.new) bytes.now result }
        ensures call { Written W.call_takes (inner_of self.old) (bytes.now ∷ []) (inner_of self.new) (taken_of bytes.now result) }
    {
        let mut done = 0;
        while done < bytes.len() {
            match self.write(&bytes[done..]) {
                None => return Err(done),
                Some(count) => done += count,
            }
        }
        Ok(())
    }
}
