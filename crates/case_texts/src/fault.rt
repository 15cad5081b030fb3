//! Why a text does not tell a run.

use ocs_base::OutOfMemory;
use std::alloc::{AllocError, AllocFailed};
use thiserror::Error;

/// Why a text does not tell a run. `Untold`: it lacks what is named.
#[derive(Clone, Copy, Debug, Error)]
pub enum TextFault {
    #[error("out of memory")]
    OutOfMemory,
    #[error("{0}")]
    Untold(&'static str),
}

impl From<AllocError> for TextFault {
    fn from(_refused: AllocError) -> TextFault {
        TextFault::OutOfMemory
    }
}

impl<T: Drop> From<AllocFailed<T>> for TextFault {
    fn from(_refused: AllocFailed<T>) -> TextFault {
        TextFault::OutOfMemory
    }
}

impl From<OutOfMemory> for TextFault {
    fn from(_refused: OutOfMemory) -> TextFault {
        TextFault::OutOfMemory
    }
}
