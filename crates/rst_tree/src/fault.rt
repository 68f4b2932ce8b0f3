//! What a call gives, and what can hinder printing.
use std::alloc::AllocError;
use thiserror::Error;

/// What a call gives, unless memory ran out.
pub type Result<T, E = AllocError> = std::result::Result<T, E>;

/// Why a text wasn't written whole.
#[derive(Clone, Copy, Debug, PartialEq, Eq, Error)]
pub enum PrintFault {
    /// A write failed; `done` is how many bytes of the text were taken before, or the largest `usize` if they are more.
    #[error("write failed after {done} bytes")]
    Write { done: usize },
}
