//! Files by their names: in memory, failing, and of the system.

use crate::calls::{NAME, bytes};
use reg_base::{DiskFiles, FailingFiles, FileFault, Files, MemFiles};
use std::alloc::Global;
use std::process::Abort;
use std::test::Fail;
use std::{env, fs, process};

/// A name, the most bytes that are read, and what they are.
type Read<'a> = (&'a str, u64, Result<&'a [u8], FileFault>);

/// The reads give what stands in the rows, one after another; so many have failed then.
fn reads<F: Files>(rt: &impl Abort, alloc: Global, files: &mut F, rows: &[Read<'_>], faults: u64) {
    for (row, (name, most, wanted)) in rows.iter().enumerate() {
        match files.read_file(alloc, name, *most) {
            Ok(bytes) => assert!(rt; *wanted == Ok(bytes.as_slice()), "read {row} of {name}"),
            Err(fault) => assert!(rt; *wanted == Err(fault), "read {row} of {name}"),
        }
    }
    assert!(rt; files.faults() == faults);
}

// `/dev/zero` has no end.
#[test]
fn files_are_read_by_their_names(rt: HostRuntime) -> Result<(), Fail> {
    let alloc = rt.alloc();
    let mut in_memory = MemFiles::new(alloc, NAME, bytes(alloc, b"RGDB")?)?;
    let rows: [Read<'_>; 6] = [
        (NAME, 4, Ok(b"RGDB")),
        (NAME, 3, Err(FileFault::TooLong)),
        ("other.db", 4, Err(FileFault::Failed)),
        ("", 4, Err(FileFault::Failed)),
        (NAME, u64::MAX, Ok(b"RGDB")),
        (NAME, 4, Ok(b"RGDB")),
    ];
    reads(&rt, alloc, &mut in_memory, &rows, 2);
    let mut failing = FailingFiles::new(alloc, NAME, bytes(alloc, b"RGDB")?, &[1, 3])?;
    let rows: [Read<'_>; 4] = [
        (NAME, 4, Err(FileFault::Failed)),
        (NAME, 4, Ok(b"RGDB")),
        (NAME, 4, Err(FileFault::Failed)),
        (NAME, 4, Ok(b"RGDB")),
    ];
    reads(&rt, alloc, &mut failing, &rows, 2);
    let folder = env::temp_dir(&rt)?;
    let number = process::id(rt.process());
    let name = format!(in alloc; "{}/regtool-{number}.db", folder.as_str())?;
    fs::write(&rt, name.as_str(), "RGDB")?;
    let mut on_disk = DiskFiles::new(&rt);
    let rows: [Read<'_>; 3] = [
        (name.as_str(), 4, Ok(b"RGDB")),
        (name.as_str(), 3, Err(FileFault::TooLong)),
        ("/dev/zero", 100_000, Err(FileFault::TooLong)),
    ];
    reads(&rt, alloc, &mut on_disk, &rows, 0);
    fs::remove_file(&rt, name.as_str())?;
    let rows: [Read<'_>; 3] = [
        ("/no folder/regulatory.db", 4, Err(FileFault::Failed)),
        ("/dev", 4, Err(FileFault::Failed)),
        ("", 4, Err(FileFault::Failed)),
    ];
    reads(&rt, alloc, &mut on_disk, &rows, 3);
    Ok(())
}
