//! What programs start with: their argument words, and a run over a file or over standard input.
ghost use Rattle.std.specs.Prelude.{◌≡◌, false};
ghost use Rattle.rst_text.specs.Counted.{has_failed};

use crate::reporting::Stop;
use crate::running::run;
use rst_settings::Settings;
use rst_text::Counted;
use rst2pseudoxml_options::{Format, OptionFault};
use std::alloc::{AllocError, Global};
use std::env;
use std::fs::File;
use std::io::{Error, ErrorKind, Write};

/// The size of a large block, below the 32 MiB from which on the C library learns nothing.
const LARGE: usize = 32_000_000;

/// The words after the program's name.
pub fn words(rt: &HostRuntime) -> Result<Vec<String>, Stop> {
    let out_of_memory = Stop::Options(OptionFault::NoMemory);
    let mut words = match env::args(rt) {
        Ok(words) => words,
        Err(error) if error.kind() == ErrorKind::OutOfMemory => return Err(out_of_memory),
        Err(_) => return Err(Stop::Words),
    };
    let _program = words.next();
    words.collect(rt.alloc()).map_err(|_| out_of_memory)
}

/// Runs over the file of this name, or over standard input.
pub fn run_over<E: Write>(
    rt: &HostRuntime,
    settings: &Settings,
    format: Format,
    source: Option<String>,
    err: &mut Counted<E>,
) -> Stop
    requires { has_failed err.old ≡ false }
{
    let alloc = rt.alloc();
    keep_freed_blocks(alloc);
    let mut out = Counted::of(rt.stdout());
    let Some(source) = source else {
        let mut input = Counted::of(rt.stdin());
        return Stop::Ran(run(
            alloc, settings, format, "<stdin>", &mut input, &mut out, err,
        ));
    };
    match open_source(rt, source.as_str()) {
        Ok(file) => {
            let mut input = Counted::of(file);
            Stop::Ran(run(
                alloc,
                settings,
                format,
                source.as_str(),
                &mut input,
                &mut out,
                err,
            ))
        }
        Err(_) => Stop::Open(source),
    }
}

/// Lets the C library keep the blocks that are given up for those that are taken later. By itself it hands large ones back to the system, and the
/// pages of the next are made anew, which takes longer than what is done with them; but one that sees a block of some size given up keeps
/// smaller ones from then on (glibc's manual, `M_MMAP_THRESHOLD`). Where there is no room for the block, nothing is lost.
fn keep_freed_blocks(alloc: Global) {
    let block: Result<Vec<u8>, AllocError> = Vec::with_capacity(alloc, LARGE);
    drop(block);
}

/// The file of this name, opened to be read.
// The room for its path is off the stack while a document is read.
#[inline(never)]
fn open_source(rt: &HostRuntime, name: &str) -> Result<File, Error> {
    File::open(rt, name)
}
