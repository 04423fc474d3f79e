//! The fault of a call that can only want memory.
use std::alloc::{AllocError, AllocFailed};
use thiserror::Error;

/// A request for memory was refused.
#[derive(Debug, Clone, Copy, PartialEq, Eq, Error)]
#[error("memory refused")]
pub struct Memory;

impl From<AllocError> for Memory {
    fn from(_: AllocError) -> Memory {
        Memory
    }
}

impl<T: Drop> From<AllocFailed<T>> for Memory {
    fn from(_: AllocFailed<T>) -> Memory {
        Memory
    }
}
