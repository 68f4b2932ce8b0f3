//! What can be wrong with argument words.
ghost use Rattle.std.specs.Prelude.{◌≡◌};
ghost use Rattle.clap.specs.Words.{kind_of};
ghost use Rattle.rst2pseudoxml_options.specs.Command.{fault_of};
ghost use Rattle.rst2pseudoxml_options.specs.declared.fault.OptionFault.TheVariants.{NoMemory};

use clap::error::ErrorKind;
use std::alloc::AllocError;
use thiserror::Error;

/// Why the words choose no settings. `options` names the order in which faults are looked for; callers may count on the
/// places of the variants, so a fault that is new comes last.
#[derive(Clone, Copy, Debug, PartialEq, Eq, Error)]
pub enum OptionFault {
    /// An unknown option, one that is given twice or lacks its value, a flag with a value, a second SOURCE, or one
    /// that begins with a hyphen.
    #[error("bad arguments")]
    Usage,
    /// A LEVEL that is none of `1` to `5`, `info`, `warning`, `error`, `severe` and `none`.
    #[error("bad level")]
    BadLevel,
    /// A tab width that is no decimal number from 1 to 99, or begins with a zero.
    #[error("bad tab width")]
    BadTab,
    /// More than one option for the report level, or for the halt level.
    #[error("two levels")]
    TwoLevels,
    /// A growth was refused.
    #[error("out of memory")]
    NoMemory,
    /// A line limit that is no decimal number from 1 to 16,777,216, or begins with a zero.
    #[error("bad line limit")]
    BadLimit,
}

impl From<AllocError> for OptionFault {
    ghost from_gives = { λ _ fault. fault ≡ NoMemory };

    fn from(_error: AllocError) -> OptionFault {
        OptionFault::NoMemory
    }
}

impl From<clap::Error> for OptionFault {
    ghost from_gives = { λ error fault. fault ≡ fault_of (kind_of error) };

    fn from(error: clap::Error) -> OptionFault {
        match error.kind() {
            ErrorKind::OutOfMemory => OptionFault::NoMemory,
            _ => OptionFault::Usage,
        }
    }
}
