//! Why nothing was timed.

use reg_lists::OutOfMemory;
use std::io;

/// The word is no good, the input can't be read, or no memory was found.
#[derive(Clone, Copy, Debug)]
pub(crate) struct Stop;

impl From<io::Error> for Stop {
    fn from(_error: io::Error) -> Stop {
        Stop
    }
}

impl From<OutOfMemory> for Stop {
    fn from(_error: OutOfMemory) -> Stop {
        Stop
    }
}
