//! Why a run stops before the end of its script.
use std::alloc::{AllocError, AllocFailed};
use std::io;

#[derive(Drop, Debug)]
pub enum Stop {
    Output(io::Error),
    NoMemory,
}

impl From<io::Error> for Stop {
    fn from(e: io::Error) -> Stop {
        Stop::Output(e)
    }
}

impl From<AllocError> for Stop {
    fn from(_e: AllocError) -> Stop {
        Stop::NoMemory
    }
}

impl<T: Drop> From<AllocFailed<T>> for Stop {
    fn from(_e: AllocFailed<T>) -> Stop {
        Stop::NoMemory
    }
}
