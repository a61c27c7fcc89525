//! Readers on threads of their own, and a writer that goes on until all have ended.

use crate::stop::Stop;
use std::alloc::{AllocError, Global};
use std::sync::atomic::{AtomicU64, Ordering};
use std::thread;
use std::thread::Threads;

/// More publishes than a writer makes.
const PUBLISHES: u64 = 10_000_000_000;

/// How many looks went back or were torn, and how many publishes there were.
#[derive(Clone, Copy, Debug)]
pub(crate) struct Count {
    pub back: u64,
    pub publishes: u64,
}

/// One reader.
pub(crate) trait Reads {
    /// Looks once. It gives the table's number, and whether the table was whole.
    fn look(self) -> (Self, (u64, bool))
    where
        Self: Sized;
}

/// The writer.
pub(crate) trait Writes {
    /// Publishes a table of the next number.
    fn put(self, alloc: Global) -> Result<Self, Stop>
    where
        Self: Sized;
}

/// Looks so often. It counts the looks that saw a lower number than one before, or a torn table.
fn look_all<S: Reads + Drop>(reader: S, looks: u32, ended: &AtomicU64) -> u64 {
    let mut reader = reader;
    let mut least = 0;
    let mut back = 0u64;
    for _look in 0..looks {
        let (again, (number, whole)) = reader.look();
        reader = again;
        if number < least || !whole {
            back = back.saturating_add(1);
        }
        least = number;
    }
    ended.fetch_add(1, Ordering::SeqCst);
    back
}

/// Publishes until so many readers have ended, and counts the publishes.
fn publish_all<W: Writes + Drop>(
    writer: W,
    alloc: Global,
    readers: u64,
    ended: &AtomicU64,
) -> Result<u64, Stop> {
    let mut writer = writer;
    for publishes in 0..PUBLISHES {
        if ended.load(Ordering::SeqCst) >= readers {
            return Ok(publishes);
        }
        writer = writer.put(alloc)?;
    }
    Ok(PUBLISHES)
}

/// Runs the race.
pub(crate) fn race<R: Threads + Sync, S: Reads + Send + Drop, W: Writes + Drop>(
    rt: &R,
    alloc: Global,
    readers: Vec<S>,
    writer: W,
    looks: u32,
) -> Result<Count, Stop> {
    let count = readers.len() as u64;
    let ended = AtomicU64::new(0);
    let (backs, publishes) = thread::join(
        rt,
        || all_looks(rt, readers, looks, &ended),
        || publish_all(writer, alloc, count, &ended),
    );
    let back = backs?
        .iter()
        .fold(0u64, |all, one| all.saturating_add(*one));
    Ok(Count {
        back,
        publishes: publishes?,
    })
}

/// Lets each reader look on a thread of its own.
fn all_looks<R: Threads + Sync, S: Reads + Send + Drop>(
    rt: &R,
    readers: Vec<S>,
    looks: u32,
    ended: &AtomicU64,
) -> Result<Vec<u64>, AllocError> {
    thread::map_vec(rt, readers, &|reader: S| look_all(reader, looks, ended))
}
