//! The board whose readers never wait.
ghost use Rattle.std.specs.Prelude.{◌≤◌};

use crate::race::{Count, Reads, Writes, race};
use crate::stop::Stop;
use crate::table::Table;
use rule_publish::{Board, Looker, SwapBoard, Teller};
use std::alloc::Global;
use std::sync::Wait;
use std::thread::Threads;

impl Reads for Looker<Table> {
    fn look(self) -> (Looker<Table>, (u64, bool)) {
        let look = self.enter();
        let seen = look.value().read();
        (look.leave(), seen)
    }
}

impl<R: Wait + Drop> Writes for Teller<Table, R> {
    fn put(self, alloc: Global) -> Result<Teller<Table, R>, Stop> {
        let next = Table::new(self.shown_number().saturating_add(1));
        let (teller, done) = self.publish(alloc, next);
        done?;
        Ok(teller)
    }
}

/// Runs the race over the board.
pub(crate) fn run<R: Threads + Wait + Sync>(
    rt: &R,
    alloc: Global,
    readers: u8,
    looks: u32,
) -> Result<Count, Stop>
    requires { (1 ≤ readers) × (readers ≤ 8) }
{
    let (teller, mut lookers) = SwapBoard::open(rt, alloc, Table::new(0), readers)?;
    let mut all = Vec::new(alloc);
    for _reader in 0..readers {
        if let Some(looker) = lookers.take() {
            all.push(looker)?;
        }
    }
    race(rt, alloc, all, teller, looks)
}
