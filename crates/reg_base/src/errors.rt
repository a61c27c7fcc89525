//! What devices refuse.

use thiserror::Error;

/// A source could not be read, or a sink could not be written.
#[derive(Clone, Copy, Debug, PartialEq, Eq)]
pub struct Failed;

/// Why not all bytes of a file, or of a source, were read.
#[derive(Clone, Copy, Debug, PartialEq, Eq, Error)]
pub enum FileFault {
    /// It could not be opened or read.
    #[error("read fault")]
    Failed,
    /// It has more bytes than were allowed.
    #[error("too long")]
    TooLong,
    /// No memory was found.
    #[error("no memory")]
    OutOfMemory,
}
