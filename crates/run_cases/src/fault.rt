//! Why a run is not as it is told.

use case_texts::TextFault;
use ocs_base::OutOfMemory;
use std::alloc::{AllocError, AllocFailed};
use thiserror::Error;

/// What ends the test of a run. `Untold`: the text of the run lacks what is named. `Wrong`: a part
/// of what the run gives is not as it is told.
#[derive(Debug, Drop, Error)]
pub enum CaseFault {
    #[error("out of memory")]
    OutOfMemory,
    #[error("{0}")]
    Untold(&'static str),
    #[error("{part} of {run}")]
    Wrong { part: &'static str, run: String },
}

impl From<AllocError> for CaseFault {
    fn from(_refused: AllocError) -> CaseFault {
        CaseFault::OutOfMemory
    }
}

impl<T: Drop> From<AllocFailed<T>> for CaseFault {
    fn from(_refused: AllocFailed<T>) -> CaseFault {
        CaseFault::OutOfMemory
    }
}

impl From<OutOfMemory> for CaseFault {
    fn from(_refused: OutOfMemory) -> CaseFault {
        CaseFault::OutOfMemory
    }
}

impl From<TextFault> for CaseFault {
    fn from(fault: TextFault) -> CaseFault {
        match fault {
            TextFault::OutOfMemory => CaseFault::OutOfMemory,
            TextFault::Untold(missing) => CaseFault::Untold(missing),
        }
    }
}

impl From<&'static str> for CaseFault {
    fn from(missing: &'static str) -> CaseFault {
        CaseFault::Untold(missing)
    }
}
