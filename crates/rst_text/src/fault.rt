//! What can be wrong with a text.
ghost use Rattle.std.specs.Prelude.{◌≡◌};
ghost use Rattle.rst_text.specs.declared.fault.TextFault.TheVariants.{NoMemory};
ghost use Rattle.rst_text.specs.declared.fault.LineFault.TheVariants.{NoMemory as OutOfMemory};

use std::alloc::AllocError;
use thiserror::Error;

/// Why bytes were not decoded.
#[derive(Clone, Copy, Debug, PartialEq, Eq, Error)]
pub enum TextFault {
    /// The bytes are no UTF-8; `at` is how many bytes their longest front has that is.
    #[error("not UTF-8 at byte {at}")]
    NotUtf8 { at: usize },
    /// A growth was refused.
    #[error("out of memory")]
    NoMemory,
}

/// Why lines were not made.
#[derive(Clone, Copy, Debug, PartialEq, Eq, Error)]
pub enum LineFault {
    /// The line of this number, counted from 1, is the first that is longer than the limit.
    #[error("line {line} is too long")]
    TooLong { line: usize },
    /// A growth was refused.
    #[error("out of memory")]
    NoMemory,
}

impl<E: Drop> From<E> for TextFault
where
    AllocError: From<E>,
{
    ghost from_gives = { λ _ fault. fault ≡ NoMemory };

    fn from(_error: E) -> TextFault {
        TextFault::NoMemory
    }
}

impl<E: Drop> From<E> for LineFault
where
    AllocError: From<E>,
{
    ghost from_gives = { λ _ fault. fault ≡ OutOfMemory };

    fn from(_error: E) -> LineFault {
        LineFault::NoMemory
    }
}
