//! Want of memory.

use std::alloc::{AllocError, AllocFailed};

/// Memory was refused. A call that answers it says in its clauses what its arguments hold then.
#[derive(Debug, PartialEq, Eq, Clone, Copy)]
pub struct Memory;

impl From<AllocError> for Memory {
    fn from(_error: AllocError) -> Memory {
        Memory
    }
}

impl<T: Drop> From<AllocFailed<T>> for Memory {
    fn from(_error: AllocFailed<T>) -> Memory {
        Memory
    }
}
