// Want of memory, the one answer that a call may give at any time.
use std::alloc::{AllocError, AllocFailed};
use thiserror::Error;

/// The allocator had no room. Nothing else is said by it: the call that answers it says what stays.
#[derive(Clone, Copy, Debug, PartialEq, Eq, Error)]
#[error("no memory")]
pub struct NoMemory;

impl From<AllocError> for NoMemory {
    fn from(_: AllocError) -> Self {
        NoMemory
    }
}

impl<T: Drop> From<AllocFailed<T>> for NoMemory {
    fn from(_: AllocFailed<T>) -> Self {
        NoMemory
    }
}
