//! What can hinder the reading of blocks.
ghost use Rattle.std.specs.Prelude.{◌≡◌};
ghost use Rattle.rst_block_nodes.specs.declared.fault.BlockFault.TheVariants.{NoMemory};

use std::alloc::AllocError;
use thiserror::Error;

/// Why a document was not read.
#[derive(Clone, Copy, Debug, PartialEq, Eq, Error)]
pub enum BlockFault {
    /// A block that isn't blank is nested deeper than 250 levels: the number of its first line that isn't blank.
    #[error("line {line}: nesting too deep")]
    TooDeep { line: usize },
    /// A growth was refused.
    #[error("out of memory")]
    NoMemory,
}

impl<E: Drop> From<E> for BlockFault
where
    AllocError: From<E>,
{
    ghost from_gives = { λ _ fault. fault ≡ NoMemory };

    fn from(_error: E) -> BlockFault {
        BlockFault::NoMemory
    }
}
