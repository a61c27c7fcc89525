//! Feeds a decoder in pieces.

ghost use Rattle.std.specs.Prelude.{◌≡◌, ◌+◌, ◌^◌, ◌<◌, ◌≤◌, length};

use nl_attrs::{AttrFault, Decoder, NextFault};
use reg_base::{Failed, Source};
use reg_lists::OutOfMemory;
use std::alloc::Global;

/// How many bytes are read at once.
const BUFFER: usize = 65_536;

/// The most bytes of a stream.
const MOST: u64 = 1 << 30;

/// Why a stream wasn't taken to its end.
#[derive(Clone, Copy, Debug, PartialEq, Eq)]
pub(crate) enum Stop {
    /// The word is no size of pieces.
    Usage,
    /// A read failed.
    Failed,
    /// The stream has more bytes than the limit.
    TooLong,
    /// The messages have a fault.
    Bad(AttrFault),
    /// No memory was found.
    OutOfMemory,
}

impl From<Failed> for Stop {
    fn from(_failed: Failed) -> Stop {
        Stop::Failed
    }
}

impl From<OutOfMemory> for Stop {
    fn from(_none: OutOfMemory) -> Stop {
        Stop::OutOfMemory
    }
}

impl From<AttrFault> for Stop {
    fn from(fault: AttrFault) -> Stop {
        Stop::Bad(fault)
    }
}

impl From<NextFault> for Stop {
    fn from(fault: NextFault) -> Stop {
        match fault {
            NextFault::Bad(fault) => Stop::Bad(fault),
            NextFault::OutOfMemory => Stop::OutOfMemory,
        }
    }
}

/// Takes all messages that are whole.
fn take_all(decoder: &mut Decoder) -> Result<(), Stop>
    ensures { decoder.new.taken + length decoder.new.held ≡ decoder.old.taken + length decoder.old.held }
{
    'taking: loop {
        if decoder.next()?.is_none() {
            return Ok(());
        }
    }
}

/// Feeds the bytes in pieces of this size, the last one perhaps shorter, and takes the messages.
fn feed_all(decoder: &mut Decoder, bytes: &[u8], size: usize) -> Result<(), Stop>
    requires some { 0 < size }
    requires room { decoder.old.taken + length decoder.old.held + length bytes.now ≤ 2 ^ 63 }
    ensures { decoder.new.taken + length decoder.new.held ≤ decoder.old.taken + length decoder.old.held + length bytes.now }
{
    let mut rest = bytes;
    'feeding: while !rest.is_empty() {
        let count = size.min(rest.len());
        decoder.feed(&rest[..count])?;
        take_all(decoder)?;
        rest = &rest[count..];
    }
    Ok(())
}

/// Takes the messages of the input, in pieces of this size, to its end. The answer is how many bytes
/// they have.
pub(crate) fn take_stream<S: Source>(
    alloc: Global,
    input: &mut S,
    size: usize,
) -> Result<u64, Stop> {
    if size == 0 {
        return Err(Stop::Usage);
    }
    let mut decoder = Decoder::new(alloc);
    let mut buffer = [0u8; BUFFER];
    let mut fed = 0;
    'reading: loop {
        let count = input.read(&mut buffer)?;
        if count == 0 {
            decoder.finish()?;
            return Ok(decoder.taken());
        }
        if fed > MOST {
            return Err(Stop::TooLong);
        }
        fed += count as u64;
        feed_all(&mut decoder, &buffer[..count], size)?;
    }
}
