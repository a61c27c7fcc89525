//! Reads a source to its end.

ghost use Rattle.std.specs.Prelude.{◌≤◌, IfErr, IfOk, OnOk, length};
ghost use Rattle.std.specs.Io.KnownBytes.{IsAtEnd};
ghost use Rattle.reg_base.specs.Files.{AreAll, IsFileFault};

use crate::bytes::Bytes;
use crate::errors::FileFault;
use crate::source::Source;
use std::alloc::Global;

/// How many bytes are asked for at once.
const BUFFER: usize = 16_384;

/// All bytes that the source has left, at most `most` of them. What was read before an error is
/// lost.
pub fn read_to_end<S: Source>(alloc: Global, input: &mut S, most: usize) -> Result<Bytes, FileFault>
    ensures all { IfOk result (AreAll (S.left input.old)) }
    ensures at_end { OnOk result (IsAtEnd (S.left input.new)) }
    ensures within { IfOk result (λ bytes. length bytes ≤ most) }
    ensures cause { IfErr result (IsFileFault most (S.left input.old) (S.count input.old) (S.count input.new)) }
    ensures later { S.count input.old ≤ S.count input.new }
{
    let mut bytes = Bytes::new(alloc);
    let mut buffer = [0u8; BUFFER];
    'reading: loop {
        let count = match input.read(&mut buffer) {
            Ok(count) => count,
            Err(_failed) => return Err(FileFault::Failed),
        };
        if count == 0 {
            return Ok(bytes);
        }
        if count > most - bytes.len() {
            return Err(FileFault::TooLong);
        }
        if bytes.append(&buffer[..count]).is_err() {
            return Err(FileFault::OutOfMemory);
        }
    }
}
