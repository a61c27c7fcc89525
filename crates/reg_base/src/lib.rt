//! Sources, sinks and files of bytes: over memory, over the standard streams and on the disk.
#![tactic(auto)]

mod bytes;
mod disk;
mod errors;
mod failing;
mod files;
mod limits;
mod memory;
mod memory_files;
mod read_all;
mod shared;
mod sink;
mod source;
mod streams;

pub use bytes::Bytes;
pub use disk::DiskFiles;
pub use errors::{Failed, FileFault};
pub use failing::{FailingSink, FailingSource};
pub use files::Files;
pub use limits::{MOST_INPUT_BYTES, MOST_LINE_BYTES};
pub use memory::{MemSink, MemSource};
pub use memory_files::{FailingFiles, MemFiles};
pub use read_all::read_to_end;
pub use sink::Sink;
pub use source::Source;
pub use streams::{StdSink, StdSource};
