//! The same over a lock: readers and the writer wait for one another.

use crate::race::{Count, Reads, Writes, race};
use crate::stop::Stop;
use crate::table::Table;
use rule_publish::Numbered;
use std::alloc::Global;
use std::sync::{Arc, Mutex, Wait};
use std::thread::Threads;

/// A reader or the writer, at the table that all share.
#[derive(Drop)]
struct Sharer<'a, R: Wait> {
    rt: &'a R,
    shown: &'a Mutex<Arc<Table>>,
}

impl<'a, R: Wait> Reads for Sharer<'a, R> {
    fn look(self) -> (Sharer<'a, R>, (u64, bool)) {
        let held = Arc::try_clone(&*self.shown.lock(self.rt));
        let seen = match held {
            Ok(table) => table.read(),
            Err(_) => (0, false),
        };
        (self, seen)
    }
}

impl<'a, R: Wait> Writes for Sharer<'a, R> {
    fn put(self, alloc: Global) -> Result<Sharer<'a, R>, Stop> {
        let number = self.shown.lock(self.rt).number();
        let next = Arc::new(alloc, Table::new(number.saturating_add(1)))?;
        *self.shown.lock(self.rt) = next;
        Ok(self)
    }
}

/// Runs the race over the lock.
pub(crate) fn run<R: Threads + Wait + Sync>(
    rt: &R,
    alloc: Global,
    readers: u8,
    looks: u32,
) -> Result<Count, Stop> {
    let shown = Mutex::new(Arc::new(alloc, Table::new(0))?);
    let mut all = Vec::new(alloc);
    for _reader in 0..readers {
        all.push(Sharer { rt, shown: &shown })?;
    }
    race(rt, alloc, all, Sharer { rt, shown: &shown }, looks)
}
