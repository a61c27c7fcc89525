//! What is published.

ghost use Rattle.std.specs.Prelude.{◌≡◌, ◌≤◌, [], List, IfOk, length, take};
ghost use Rattle.rule_tables.specs.declared.domain.Domain.{Domain};
ghost use Rattle.reg_journal.specs.Asking.{AreTables, LeadsTo};
ghost use Rattle.reg_journal.specs.Dumps.{AreSections};
ghost use Rattle.reg_journal.specs.Facts.{Journal};
ghost use Rattle.reg_journal.specs.declared.request.Request.{Request};
ghost use Rattle.reg_core.specs.Kept.{StandsFor};

use crate::core_state::Core;
use reg_journal::SectionList;
use reg_lists::OutOfMemory;

/// What is published: the rules that hold after so many requests.
#[derive(Debug, Drop)]
pub struct Shown {
    /// How many requests came.
    pub requests: u64,
    /// As `Request::GetReg` shows them.
    pub sections: SectionList,
}

impl Core {
    /// The rules that hold, to be published with the number of requests that came. `OutOfMemory` is its
    /// one error.
    pub fn shown(&self, requests: u64) -> Result<Shown, OutOfMemory>
        // The number is the one that is given.
        ensures number { IfOk result (λ shown. shown.requests ≡ requests) }
        // They are the sections of each journal that the core stands for,
        ensures sections { IfOk result (λ shown. (db : List Domain) (J : Journal) → StandsFor db self.now J → AreSections db J shown.sections) }
        // and so the tables after that many requests, where there were as many, which led to such a journal, and no driver failed.
        ensures tables { IfOk result (λ shown. (db : List Domain) (qs : List Request) (J : Journal) → StandsFor db self.now J
            → requests ≤ length qs → LeadsTo db [] (take requests qs) J → AreTables db qs requests shown.sections) }
    {
        Ok(Shown {
            requests,
            sections: self.sections()?,
        })
    }
}
