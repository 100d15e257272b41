// Why a line of input gave no verdict.
use std::alloc::{AllocError, AllocFailed};

#[derive(Debug, Drop)]
pub enum Fault {
    // the line is not of the form that its kind has
    Malformed,
    NoMemory,
}

impl From<AllocError> for Fault {
    fn from(_error: AllocError) -> Fault {
        Fault::NoMemory
    }
}

impl<T: Drop> From<AllocFailed<T>> for Fault {
    fn from(_error: AllocFailed<T>) -> Fault {
        Fault::NoMemory
    }
}
