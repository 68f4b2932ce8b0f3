//! Runs over readers and writers in memory that fail in mid-stream, and what is reported of each end.
ghost use Rattle.std.specs.Prelude.{◌≡◌, ◌≤◌, false, Some};
ghost use Rattle.rst_text.specs.Counted.{has_failed};

use super::whole_document::DOCUMENT;
use rst_settings::Settings;
use rst_text::{Counted, ReadCall};
use rst2pseudoxml_options::{Format, OptionFault};
use rst2pseudoxml_run::{End, Stop, report, run};
use std::alloc::Global;
use std::io::{Error, ErrorKind, Read, Result, Write};
use std::test::Fail;

/// A writer that takes at most `step` bytes a call and `room` in all. Once full it takes 0 bytes, or fails.
#[derive(Drop)]
struct Narrow {
    written: Vec<u8>,
    room: usize,
    step: usize,
    fails: bool,
}

impl Narrow {
    fn new(alloc: Global, room: usize, step: usize, fails: bool) -> Narrow {
        Narrow {
            written: Vec::new(alloc),
            room,
            step,
            fails,
        }
    }
}

impl Write for Narrow {
    ghost contents = { λ w. Some w.written.items };

    fn write(&mut self, buf: &[u8]) -> Result<usize> {
        let n = buf.len().min(self.room).min(self.step);
        if n == 0 && self.fails {
            return Err(Error::from(ErrorKind::StorageFull));
        }
        self.written.extend_from_slice(&buf[..n])?;
        self.room -= n;
        Ok(n)
    }

    fn flush(&mut self) -> Result<()> {
        Ok(())
    }
}

/// A reader that gives `left` times a byte and then ends, or fails: the last `single` of them one by one, the others at most `step`
/// a call. It counts its calls.
#[derive(Drop)]
struct Bytes {
    byte: u8,
    step: usize,
    single: usize,
    left: usize,
    fails: bool,
    calls: u64,
}

impl Bytes {
    /// The most bytes that the next call gives.
    fn most(&self) -> usize
        ensures { result ≤ self.now.left }
    {
        if self.left > self.single {
            self.step.min(self.left - self.single)
        } else {
            self.left.min(1)
        }
    }
}

impl Read for Bytes {
    fn read(&mut self, buf: &mut [u8]) -> Result<usize> {
        self.calls = self.calls.saturating_add(1);
        if self.left == 0 && self.fails {
            return Err(Error::from(ErrorKind::UnexpectedEof));
        }
        let n = buf.len().min(self.most());
        buf[..n].fill(self.byte);
        self.left -= n;
        Ok(n)
    }
}

/// How a run over such a reader ends, and what its writers to standard output and standard error have then.
fn run_between<R: ReadCall>(
    alloc: Global,
    input: &mut Counted<R>,
    mut out: Narrow,
    mut err: Narrow,
) -> (End, Narrow, Narrow)
    requires { has_failed input.old ≡ false }
{
    let end = run(
        alloc,
        &Settings::usual(),
        Format::PseudoXml,
        "<stdin>",
        input,
        &mut Counted::of(&mut out),
        &mut Counted::of(&mut err),
    );
    (end, out, err)
}

/// A writer with room for all that a short text gives.
fn wide(alloc: Global) -> Narrow {
    Narrow::new(alloc, 40_000, 1000, true)
}

/// How a run over a text ends, and what its writer to standard output has then.
fn run_into(alloc: Global, text: &[u8], out: Narrow) -> (End, Narrow) {
    let (end, out, _) = run_between(alloc, &mut Counted::of(text), out, wide(alloc));
    (end, out)
}

/// How a run over such a reader ends, and how often the reader was called.
fn run_over(alloc: Global, bytes: Bytes) -> (End, u64) {
    let mut input = Counted::of(bytes);
    let (end, _, _) = run_between(alloc, &mut input, wide(alloc), wide(alloc));
    (end, input.inner().calls)
}

const HELLO: &str = "<document source=\"<stdin>\">\n    <paragraph>\n        Hello, world\n";

#[test]
fn shows_texts(rt: HostRuntime) -> std::result::Result<(), Fail> {
    let two =
        "<document source=\"<stdin>\">\n    <paragraph>\n        a\n        b\n    <paragraph>\n        c\n        d\n";
    let rows: [(&[u8], &str); 9] = [
        (b"", "<document source=\"<stdin>\">\n"),
        (b" \t\n\r\n", "<document source=\"<stdin>\">\n"),
        (b"Hello, world", HELLO),
        (b"Hello, world\n", HELLO),
        (b"Hello, world\r\n", HELLO),
        (b"Hello, world\xE2\x80\xA8", HELLO),
        (b"\xEF\xBB\xBFHello, world", HELLO),
        (b"\n\na\r\nb  \n \t\n\nc\rd\n", two),
        (b"a\xC2\x85b\x1C\x1Cc\x1Ed\xE2\x80\xA9", two),
    ];
    for (text, want) in rows {
        let (end, out) = run_into(rt.alloc(), text, wide(rt.alloc()));
        assert_eq!(rt; end, End::Done(0));
        assert_eq!(rt; out.written.as_slice(), want.as_bytes());
    }
    Ok(())
}

#[test]
fn refuses_texts(rt: HostRuntime) -> std::result::Result<(), Fail> {
    let rows: [(&[u8], End); 6] = [
        (b"a\xFF", End::NotUtf8 { at: 1 }),
        (b"\xEF\xBB\xBF\xFF", End::NotUtf8 { at: 3 }),
        (b"\xC0\x80", End::NotUtf8 { at: 0 }),
        (b"ab\xED\xA0\x80", End::NotUtf8 { at: 2 }),
        (b"\xF4\x90\x80\x80", End::NotUtf8 { at: 0 }),
        (b"abc\xE2\x80", End::NotUtf8 { at: 3 }),
    ];
    for (text, want) in rows {
        let (end, out) = run_into(rt.alloc(), text, wide(rt.alloc()));
        assert_eq!(rt; end, want);
        assert!(rt; out.written.is_empty());
    }
    Ok(())
}

#[test]
fn keeps_what_a_narrow_writer_took(rt: HostRuntime) -> std::result::Result<(), Fail> {
    for step in [1usize, 7, 1000] {
        for room in 0usize..65 {
            for fails in [false, true] {
                let narrow = Narrow::new(rt.alloc(), room, step, fails);
                let (end, out) = run_into(rt.alloc(), b"Hello, world", narrow);
                assert_eq!(rt; end, End::WriteOut { done: room });
                assert_eq!(rt; out.written.as_slice(), &HELLO.as_bytes()[..room]);
            }
        }
        let narrow = Narrow::new(rt.alloc(), 65, step, true);
        let (end, out) = run_into(rt.alloc(), b"Hello, world", narrow);
        assert_eq!(rt; end, End::Done(0));
        assert_eq!(rt; out.written.as_slice(), HELLO.as_bytes());
    }
    Ok(())
}

#[test]
fn keeps_what_a_narrow_error_writer_took(rt: HostRuntime) -> std::result::Result<(), Fail> {
    let message = "<stdin>:1: (WARNING/2) Inline emphasis start-string without end-string.\n";
    for step in [1usize, 7, 1000] {
        for room in [0usize, 1, 30, 71] {
            for fails in [false, true] {
                let mut input = Counted::of(b"*a".as_slice());
                let err = Narrow::new(rt.alloc(), room, step, fails);
                let (end, out, err) = run_between(rt.alloc(), &mut input, wide(rt.alloc()), err);
                assert_eq!(rt; end, End::WriteErr { done: room });
                assert_eq!(rt; err.written.as_slice(), &message.as_bytes()[..room]);
                assert!(rt; out.written.is_empty());
            }
        }
    }
    Ok(())
}

/// How a run ends over `left` bytes that are no UTF-8, so that nothing is made of them, and how often the reader was called.
fn read_over(alloc: Global, left: usize, single: usize, fails: bool) -> (End, u64) {
    run_over(
        alloc,
        Bytes {
            byte: 0xFF,
            step: 8192,
            single,
            left,
            fails,
            calls: 0,
        },
    )
}

/// Each call hands out a byte at least, and none follows the one that hands out the 16,777,217th. So there are no more calls than these.
#[test]
fn reads_to_the_limit(rt: HostRuntime) {
    assert_eq!(rt;
        read_over(rt.alloc(), 16_777_216, 0, false),
        (End::NotUtf8 { at: 0 }, 2049)
    );
    assert_eq!(rt;
        read_over(rt.alloc(), 16_777_217, 0, false),
        (End::TooLong, 2049)
    );
    // All but 8,192 bytes of the limit in 2,047 calls, then one by one.
    assert_eq!(rt;
        read_over(rt.alloc(), 16_777_216, 8192, false),
        (End::NotUtf8 { at: 0 }, 2047 + 8192 + 1)
    );
    assert_eq!(rt;
        read_over(rt.alloc(), 16_777_216 + 5000, 8192 + 5000, true),
        (End::TooLong, 2047 + 8193)
    );
}

/// As many line ends as an input may have bytes are blank lines.
#[test]
fn reads_line_ends_to_the_limit(rt: HostRuntime) {
    for (left, want, printed) in [
        (
            16_777_216usize,
            End::Done(0),
            "<document source=\"<stdin>\">\n",
        ),
        (16_777_217, End::TooLong, ""),
    ] {
        let mut input = Counted::of(Bytes {
            byte: b'\n',
            step: 8192,
            single: 0,
            left,
            fails: false,
            calls: 0,
        });
        let (end, out, _) = run_between(rt.alloc(), &mut input, wide(rt.alloc()), wide(rt.alloc()));
        assert_eq!(rt; end, want);
        assert_eq!(rt; out.written.as_slice(), printed.as_bytes());
    }
}

/// A reader that gives some bytes and then fails.
#[derive(Drop)]
struct FailingReader {
    left: &'static [u8],
}

impl Read for FailingReader {
    fn read(&mut self, buf: &mut [u8]) -> Result<usize> {
        if self.left.is_empty() {
            return Err(Error::from(ErrorKind::UnexpectedEof));
        }
        let n = buf.len().min(self.left.len());
        buf[..n].copy_from_slice(&self.left[..n]);
        self.left = &self.left[n..];
        Ok(n)
    }
}

/// How a run over the document with every construct ends where its writers to standard output and standard error have this much room, and what
/// these have then.
fn run_whole(alloc: Global, out_room: usize, err_room: usize) -> (End, Narrow, Narrow) {
    let mut input = Counted::of(DOCUMENT.as_bytes());
    let out = Narrow::new(alloc, out_room, 1000, true);
    run_between(
        alloc,
        &mut input,
        out,
        Narrow::new(alloc, err_room, 1000, true),
    )
}

/// Reads of the document with every construct fail at each place. Nothing is made of it then.
#[test]
fn tells_each_failed_read_of_the_document(rt: HostRuntime) {
    for n in 0..DOCUMENT.len() + 1 {
        let mut input = Counted::of(FailingReader {
            left: &DOCUMENT.as_bytes()[..n],
        });
        let (end, out, err) = run_between(
            rt.alloc(),
            &mut input,
            wide(rt.alloc()),
            wide(rt.alloc()),
        );
        assert_eq!(rt; end, End::Read);
        assert!(rt; out.written.is_empty() && err.written.is_empty());
    }
}

/// Writes of its tree fail at each 499th place, and writes of its messages at each 97th: all places would take minutes.
#[test]
fn keeps_what_was_taken_of_the_document(rt: HostRuntime) {
    let (end, tree, messages) = run_whole(rt.alloc(), 40_000, 40_000);
    assert_eq!(rt; end, End::Done(0));
    let (tree, messages) = (tree.written.as_slice(), messages.written.as_slice());
    for room in 0..tree.len() {
        if room % 499 != 0 {
            continue;
        }
        let (end, out, err) = run_whole(rt.alloc(), room, 40_000);
        assert_eq!(rt; end, End::WriteOut { done: room });
        assert_eq!(rt; out.written.as_slice(), &tree[..room]);
        assert_eq!(rt; err.written.as_slice(), messages);
    }
    for room in 0..messages.len() {
        if room % 97 != 0 {
            continue;
        }
        let (end, out, err) = run_whole(rt.alloc(), 40_000, room);
        assert_eq!(rt; end, End::WriteErr { done: room });
        assert_eq!(rt; err.written.as_slice(), &messages[..room]);
        assert!(rt; out.written.is_empty());
    }
}

#[test]
fn tells_a_failed_read(rt: HostRuntime) {
    for n in 0usize..40 {
        let bytes = Bytes {
            byte: b'a',
            step: 1,
            single: n,
            left: n,
            fails: true,
            calls: 0,
        };
        let (end, calls) = run_over(rt.alloc(), bytes);
        assert_eq!(rt; end, End::Read);
        assert_eq!(rt; calls, n as u64 + 1);
    }
}

#[test]
fn reports_each_stop(rt: HostRuntime) -> std::result::Result<(), Fail> {
    let source = String::from_str(rt.alloc(), "no such file")?;
    let rows: [(Stop, &str, u8); 16] = [
        (Stop::Words, "rst2pseudoxml: bad arguments\n", 2),
        (
            Stop::Options(OptionFault::Usage),
            "rst2pseudoxml: bad arguments\n",
            2,
        ),
        (
            Stop::Options(OptionFault::BadLevel),
            "rst2pseudoxml: bad level\n",
            2,
        ),
        (
            Stop::Options(OptionFault::BadTab),
            "rst2pseudoxml: bad tab width\n",
            2,
        ),
        (
            Stop::Options(OptionFault::BadLimit),
            "rst2pseudoxml: bad line limit\n",
            2,
        ),
        (
            Stop::Options(OptionFault::TwoLevels),
            "rst2pseudoxml: two levels\n",
            2,
        ),
        (
            Stop::Options(OptionFault::NoMemory),
            "rst2pseudoxml: out of memory\n",
            2,
        ),
        (
            Stop::Open(source),
            "rst2pseudoxml: cannot open no such file\n",
            1,
        ),
        (Stop::Ran(End::Done(13)), "", 13),
        (Stop::Ran(End::Read), "rst2pseudoxml: read failed\n", 1),
        (
            Stop::Ran(End::TooLong),
            "rst2pseudoxml: input too long\n",
            1,
        ),
        (
            Stop::Ran(End::NotUtf8 { at: 16_777_215 }),
            "rst2pseudoxml: not UTF-8 at byte 16777215\n",
            1,
        ),
        (
            Stop::Ran(End::NoMemory),
            "rst2pseudoxml: out of memory\n",
            1,
        ),
        (
            Stop::Ran(End::WriteErr { done: 3 }),
            "rst2pseudoxml: write failed\n",
            1,
        ),
        (
            Stop::Ran(End::WriteOut { done: 3 }),
            "rst2pseudoxml: write failed\n",
            1,
        ),
        (
            Stop::Ran(End::TooDeep { line: 7 }),
            "rst2pseudoxml: line 7: nesting too deep\n",
            1,
        ),
    ];
    for (stop, want, status) in &rows {
        for step in [1usize, 1000] {
            let mut err = Counted::of(Narrow::new(rt.alloc(), 100, step, true));
            assert_eq!(rt; report("rst2pseudoxml", stop, &mut err), *status);
            assert_eq!(rt; err.inner().written.as_slice(), want.as_bytes());
            assert!(rt; !err.failed());
        }
        let mut full = Counted::of(Narrow::new(rt.alloc(), 10, 4, false));
        assert_eq!(rt; report("rst2pseudoxml", stop, &mut full), *status);
        assert_eq!(rt; full.failed(), !want.is_empty());
    }
    Ok(())
}
