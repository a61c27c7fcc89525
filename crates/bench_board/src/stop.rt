//! Why nothing was timed.

use rule_publish::OutOfMemory;
use std::alloc::{AllocError, AllocFailed};
use std::io;
use std::num::ParseIntError;

/// A word is no good, standard output or the clock fails, or no memory was found.
#[derive(Clone, Copy, Debug)]
pub(crate) struct Stop;

impl From<io::Error> for Stop {
    fn from(_error: io::Error) -> Stop {
        Stop
    }
}

impl From<ParseIntError> for Stop {
    fn from(_error: ParseIntError) -> Stop {
        Stop
    }
}

impl From<AllocError> for Stop {
    fn from(_error: AllocError) -> Stop {
        Stop
    }
}

impl From<OutOfMemory> for Stop {
    fn from(_error: OutOfMemory) -> Stop {
        Stop
    }
}

impl<T: Drop> From<AllocFailed<T>> for Stop {
    fn from(_error: AllocFailed<T>) -> Stop {
        Stop
    }
}
