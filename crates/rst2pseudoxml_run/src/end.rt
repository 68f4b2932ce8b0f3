//! How a run ends.
ghost use Rattle.std.specs.Prelude.{◌≡◌};
ghost use Rattle.rst2pseudoxml_run.specs.declared.end.End.TheVariants.{NoMemory};

use std::alloc::AllocError;

/// An exit status, or the fault that ended the run.
#[derive(Clone, Copy, Debug, PartialEq, Eq)]
pub enum End {
    /// Everything was written; the exit status is this.
    Done(u8),
    /// A read failed.
    Read,
    /// The input has more than 16,777,216 bytes.
    TooLong,
    /// The input is no UTF-8; `at` bytes are its longest prefix that is.
    NotUtf8 { at: usize },
    /// A block that isn't blank is nested too deeply; its first line that isn't blank has this number.
    TooDeep { line: usize },
    /// A growth was refused.
    NoMemory,
    /// A write to standard error failed when it had taken `done` bytes.
    WriteErr { done: usize },
    /// A write to standard output failed when it had taken `done` bytes.
    WriteOut { done: usize },
}

impl<E: Drop> From<E> for End
where
    AllocError: From<E>,
{
    ghost from_gives = { λ _ end. end ≡ NoMemory };

    fn from(_error: E) -> End {
        End::NoMemory
    }
}
