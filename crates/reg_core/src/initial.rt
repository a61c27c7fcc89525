//! The core before the first request.

ghost use Rattle.std.specs.Prelude.{[], List, IfOk};
ghost use Rattle.rule_tables.specs.declared.domain.Domain.{Domain};
ghost use Rattle.core_parts.specs.Kept.{KeepsRadios};
ghost use Rattle.reg_core.specs.Kept.{StandsFor};

use crate::core_state::Core;
use core_parts::{Domains, InterfaceMap, RadioPlace, initial_table};
use reg_hints::Hints;
use reg_lists::OutOfMemory;
use rule_tables::Db;
use std::alloc::Global;

/// No radio was there yet.
fn no_radios() -> [RadioPlace; 8]
    ensures { (db : List Domain) → KeepsRadios db [] result }
{
    [
        RadioPlace::Free,
        RadioPlace::Free,
        RadioPlace::Free,
        RadioPlace::Free,
        RadioPlace::Free,
        RadioPlace::Free,
        RadioPlace::Free,
        RadioPlace::Free,
    ]
}

impl Core {
    /// A core of the database's rules at moment 0, outdoors and without radios. Where the database has no
    /// domain of the world, it takes `Domain::world`.
    pub fn new(alloc: Global, db: Db) -> Result<Core, OutOfMemory>
        ensures stands { IfOk result (λ core. StandsFor db core []) }
    {
        let _domains = db.as_slice();
        let domains = Domains::new(alloc, db)?;
        let global = initial_table(alloc, &domains)?;
        Ok(Core {
            domains,
            clock: 0,
            indoor: false,
            hints: Hints::new(),
            made: 0,
            global,
            radios: no_radios(),
            interfaces: InterfaceMap::new(alloc),
        })
    }
}
