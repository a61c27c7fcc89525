//! Sources and sinks that fail, stop short, are too long or are those of std.

use crate::calls::{ROOM, bytes};
use crate::samples::{US, US_FILE};
use db_commands::{Conversion, Status, convert};
use reg_base::{FailingSink, FailingSource, MemSink, MemSource, StdSink, StdSource};
use std::test::Fail;

#[test]
fn an_input_has_at_most_16777216_bytes(rt: HostRuntime) -> Result<(), Fail> {
    for (count, wanted) in [(16_777_216, Status::Done), (16_777_217, Status::TooLong)] {
        let lines = vec![in rt.alloc(); b'\n'; count]?;
        let mut input = StdSource::new(lines.as_slice());
        let mut out = MemSink::new(rt.alloc(), ROOM)?;
        let status = convert(Conversion::Compile, rt.alloc(), &mut input, &mut out);
        assert!(rt; status == wanted, "for {count} bytes");
    }
    Ok(())
}

// The text has 46 bytes, so it takes three reads of 20 bytes, and one more that finds its end.
#[test]
fn a_failed_read_writes_nothing(rt: HostRuntime) -> Result<(), Fail> {
    for call in 1..6 {
        let text = bytes(rt.alloc(), US)?;
        let mut input = FailingSource::new(rt.alloc(), text, 20, &[call])?;
        let mut out = MemSink::new(rt.alloc(), ROOM)?;
        let status = convert(Conversion::Compile, rt.alloc(), &mut input, &mut out);
        if call < 5 {
            assert!(rt; status == Status::ReadFault, "at read {call}");
            assert!(rt; out.written().is_empty(), "at read {call}");
        } else {
            assert!(rt; status == Status::Done, "at read {call}");
        }
    }
    Ok(())
}

#[test]
fn a_failed_write_is_told(rt: HostRuntime) -> Result<(), Fail> {
    let mut input = MemSource::new(bytes(rt.alloc(), US)?, 16);
    let mut out = FailingSink::new(rt.alloc(), ROOM, &[1])?;
    let status = convert(Conversion::Compile, rt.alloc(), &mut input, &mut out);
    assert!(rt; status == Status::WriteFault);
    assert!(rt; out.written().is_empty());
    Ok(())
}

// A slice takes what it has room for, and then nothing more.
#[test]
fn a_write_that_stops_leaves_a_front(rt: HostRuntime) -> Result<(), Fail> {
    let mut room = [0u8; 21];
    let mut input = MemSource::new(bytes(rt.alloc(), US)?, 16);
    let mut out = StdSink::new(room.as_mut_slice());
    let status = convert(Conversion::Compile, rt.alloc(), &mut input, &mut out);
    assert!(rt; status == Status::WriteFault);
    drop(out);
    assert!(rt; room.as_slice() == &US_FILE[..21]);
    Ok(())
}

#[test]
fn a_file_needs_room_for_all_of_it(rt: HostRuntime) -> Result<(), Fail> {
    for (room, wanted) in [(39, Status::WriteFault), (40, Status::Done)] {
        let mut input = MemSource::new(bytes(rt.alloc(), US)?, 16);
        let mut out = MemSink::new(rt.alloc(), room)?;
        let status = convert(Conversion::Compile, rt.alloc(), &mut input, &mut out);
        assert!(rt; status == wanted, "with room for {room}");
    }
    Ok(())
}

#[test]
fn readers_and_writers_of_std_are_streams(rt: HostRuntime) -> Result<(), Fail> {
    let mut written = Vec::new(rt.alloc());
    let mut input = StdSource::new(US);
    let mut out = StdSink::new(&mut written);
    let status = convert(Conversion::Compile, rt.alloc(), &mut input, &mut out);
    assert!(rt; status == Status::Done);
    assert!(rt; written.as_slice() == US_FILE.as_slice());
    Ok(())
}
