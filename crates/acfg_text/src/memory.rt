//! The want of memory.

use std::alloc::{AllocError, AllocFailed};

/// An allocation was refused. What the call promises after it is said at the call.
#[derive(Clone, Copy, Debug, PartialEq, Eq)]
pub struct OutOfMemory;

impl From<AllocError> for OutOfMemory {
    fn from(_refused: AllocError) -> OutOfMemory {
        OutOfMemory
    }
}

impl<T: Drop> From<AllocFailed<T>> for OutOfMemory {
    fn from(_refused: AllocFailed<T>) -> OutOfMemory {
        OutOfMemory
    }
}
