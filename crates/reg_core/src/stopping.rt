//! Operations that stop.

ghost use Rattle.std.specs.Prelude.{◌≡◌, List, MatchResult};
ghost use Rattle.rule_tables.specs.declared.domain.Domain.{Domain};
ghost use Rattle.reg_journal.specs.Facts.{Journal};
ghost use Rattle.reg_journal.specs.Refusals.{StopCauses};
ghost use Rattle.reg_core.specs.Kept.{Keeps};
ghost use Rattle.reg_core.specs.inner.Starting.{HasStop, IsStop};
ghost use Rattle.reg_core.specs.Stepping.{IsReady};

use crate::commit::tell;
use crate::core_state::Core;
use crate::drivers::DriverRow;
use crate::starting::is_same_kind;
use chan_def::Kind;
use core_parts::{Change, Interface, interface_named};
use radio_drv::Name;
use reg_journal::Refusal;

impl Core {
    /// The interface of this name, where it is of the kind and operates.
    fn operating(&self, name: &Name, kind: Kind) -> Result<Interface, Refusal>
        ensures stop { (db : List Domain) (J : Journal) → Keeps db self.now J
            → MatchResult result (HasStop J name.now kind) (StopCauses J name.now kind) }
    {
        let Some(interface) = interface_named(self.interfaces.as_slice(), name) else {
            return Err(Refusal::NoInterface(*name));
        };
        if !is_same_kind(interface.kind, kind) {
            return Err(Refusal::WrongType);
        }
        let Some(_operation) = interface.operation else {
            return Err(Refusal::NotRunning);
        };
        Ok(*interface)
    }

    /// The interface of this name stops to operate (`nl80211_stop_ap`). Its driver is told.
    pub(crate) fn end_operation<D: DriverRow>(
        &mut self,
        name: &Name,
        kind: Kind,
        drivers: &mut D,
    ) -> Result<(), Refusal>
        requires ready { IsReady self.old (D.seen drivers.old) }
        ensures stop { (db : List Domain) (J : Journal) → Keeps db self.old J → IsStop db J name.now kind self.old self.new
            (D.seen drivers.old) (D.seen drivers.new) result }
    {
        let interface = self.operating(name, kind)?;
        let change = Change::Stopped(interface);
        tell(drivers, &change);
        self.commit(&change);
        Ok(())
    }
}
