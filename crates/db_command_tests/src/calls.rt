//! Calls of the conversions over memory, and what they have to answer.

ghost use Rattle.std.specs.Prelude.{◌<◌};

use db_commands::{Conversion, InputFault, Status, convert};
use reg_base::{Bytes, MemSink, MemSource};
use std::alloc::Global;
use std::process::Abort;
use std::test::Fail;

/// More than an output of these tests has.
pub const ROOM: usize = 4096;

/// A copy of the bytes.
pub fn bytes(alloc: Global, given: &[u8]) -> Result<Bytes, Fail> {
    let mut bytes = Bytes::new(alloc);
    bytes.append(given)?;
    Ok(bytes)
}

/// What the command ends with for the input, which is read in pieces of that many bytes at most; and
/// the sink that it wrote to.
pub fn converted(
    alloc: Global,
    command: Conversion,
    input: &[u8],
    piece: usize,
) -> Result<(Status, MemSink), Fail>
    requires { 0 < piece }
{
    let mut source = MemSource::new(bytes(alloc, input)?, piece);
    let mut out = MemSink::new(alloc, ROOM)?;
    let status = convert(command, alloc, &mut source, &mut out);
    Ok((status, out))
}

/// For each input the command writes the output beside it.
pub fn give(
    rt: &impl Abort,
    alloc: Global,
    command: Conversion,
    rows: &[(&[u8], &[u8])],
) -> Result<(), Fail> {
    for (row, (input, output)) in rows.iter().enumerate() {
        let (status, out) = converted(alloc, command, input, 16)?;
        assert!(rt; status == Status::Done, "row {row}");
        assert!(rt; out.written() == *output, "row {row}");
    }
    Ok(())
}

/// The command refuses each input by the fault beside it, and writes nothing.
pub fn refuse(
    rt: &impl Abort,
    alloc: Global,
    command: Conversion,
    rows: &[(&[u8], InputFault)],
) -> Result<(), Fail> {
    for (row, (input, fault)) in rows.iter().enumerate() {
        let (status, out) = converted(alloc, command, input, 16)?;
        assert!(rt; status == Status::Refused(*fault), "row {row}");
        assert!(rt; out.written().is_empty(), "row {row}");
    }
    Ok(())
}
