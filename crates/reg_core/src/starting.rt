//! Operations that start and stop.

ghost use Rattle.std.specs.Prelude.{◌≡◌, ◌≢◌, ◌↔◌, List, Bool, IsSome, IsTrue, MatchResult};
ghost use Rattle.rule_tables.specs.declared.domain.Domain.{Domain};
ghost use Rattle.chan_def.specs.declared.definition.ChanDef.{ChanDef};
ghost use Rattle.chan_def.specs.declared.kind.Kind.TheVariants.{Monitor};
ghost use Rattle.reg_journal.specs.Facts.{Journal};
ghost use Rattle.reg_journal.specs.Present.{Iface};
ghost use Rattle.reg_journal.specs.Refusals.{InUseFor, StartCauses};
ghost use Rattle.core_parts.specs.Contexts.{IsOf};
ghost use Rattle.reg_core.specs.inner.Deciding.{IsCore};
ghost use Rattle.reg_core.specs.Kept.{Keeps};
ghost use Rattle.reg_core.specs.inner.Starting.{HasFreeIface, HasStart, IsStart};
ghost use Rattle.reg_core.specs.Stepping.{IsReady};

use crate::core_state::Core;
use crate::drivers::DriverRow;
use chan_def::{ChanDef, Kind};
use core_parts::{Interface, Radio, Running, checked_channel, interface_named, judge, radio_at};
use dfs_states::DfsBook;
use radio_drv::{IfIndex, Name};
use reg_journal::Refusal;

/// Why an operation doesn't start.
#[derive(Clone, Copy, Debug, PartialEq, Eq)]
pub(crate) enum StartFault {
    Refused(Refusal),
    /// The driver failed.
    Driver,
}

/// Whether both are the same kind.
pub(crate) fn is_same_kind(one: Kind, other: Kind) -> bool
    ensures { IsTrue result ↔ (one ≡ other) }
{
    one == other
}

/// Whether the interface has an operation that a start as this kind doesn't replace.
fn has_operation_for(interface: &Interface, kind: Kind) -> bool
    ensures { IsTrue result ↔ (IsSome interface.now.operation × (kind ≢ Monitor)) }
{
    match interface.operation {
        Some(_operation) => !is_same_kind(kind, Kind::Monitor),
        None => false,
    }
}

/// Whether the interface has a running check, or an operation that a start as this kind doesn't replace:
/// a monitor's alone is replaced.
pub(crate) fn is_in_use_for(interface: &Interface, book: &DfsBook, kind: Kind) -> bool
    ensures { (db : List Domain) (J : Journal) (x : Iface) → IsOf db J x book.now interface.now → IsTrue result ↔ InUseFor J x kind }
{
    match checked_channel(book, interface) {
        Some(_chan) => true,
        None => has_operation_for(interface, kind),
    }
}

impl Core {
    /// The interface of this name and its radio, where it is of the kind and free for a start.
    fn free_for(&self, name: &Name, kind: Kind) -> Result<(&Interface, &Radio), Refusal>
        requires core { IsCore self.now }
        ensures free { (db : List Domain) (J : Journal) → Keeps db self.now J → MatchResult result
            (λ p. HasFreeIface db J name.now kind p.0.now p.1.now)
            (λ e. (c : ChanDef) (failed : Bool) → StartCauses db J name.now kind c failed e) }
    {
        let Some(interface) = interface_named(self.interfaces.as_slice(), name) else {
            return Err(Refusal::NoInterface(*name));
        };
        if !is_same_kind(interface.kind, kind) {
            return Err(Refusal::WrongType);
        }
        let Some(radio) = radio_at(&self.radios, interface.radio) else {
            unreachable!();
        };
        if is_in_use_for(interface, &radio.book, kind) {
            return Err(Refusal::Busy);
        }
        Ok((interface, radio))
    }

    /// The interface of this name and the power in mBm with which it may start on the channel, or why it
    /// may not.
    fn startable(
        &self,
        name: &Name,
        kind: Kind,
        chan: &ChanDef,
    ) -> Result<(Interface, u16), Refusal>
        requires core { IsCore self.now }
        ensures start { (db : List Domain) (J : Journal) → Keeps db self.now J → MatchResult result
            (λ p. HasStart db J name.now kind chan.now p.0 p.1)
            (λ e. (failed : Bool) → StartCauses db J name.now kind chan.now failed e) }
    {
        let (interface, radio) = self.free_for(name, kind)?;
        if !chan.valid() {
            return Err(Refusal::BadChannel);
        }
        match judge(
            interface,
            self.interfaces.as_slice(),
            radio,
            self.indoor,
            chan,
        ) {
            Ok(power_mbm) => Ok((*interface, power_mbm)),
            Err(refusal) => Err(refusal),
        }
    }

    /// The interface of this name starts to operate on the channel, with the power in mBm that is answered
    /// (`nl80211_start_ap` and its like). Its driver is told.
    pub(crate) fn begin_operation<D: DriverRow>(
        &mut self,
        name: &Name,
        kind: Kind,
        chan: &ChanDef,
        drivers: &mut D,
    ) -> Result<u16, StartFault>
        requires ready { IsReady self.old (D.seen drivers.old) }
        ensures start { (db : List Domain) (J : Journal) → Keeps db self.old J → IsStart db J name.now kind chan.now self.old self.new
            (D.seen drivers.old) (D.seen drivers.new) result }
    {
        let (interface, power_mbm) = match self.startable(name, kind, chan) {
            Ok(found) => found,
            Err(refusal) => return Err(StartFault::Refused(refusal)),
        };
        match drivers.start(interface.radio, IfIndex(interface.index), *chan, power_mbm) {
            Ok(()) => {
                let operation = Running {
                    chan: *chan,
                    power_mbm,
                };
                self.operate(&interface, Some(operation));
                Ok(power_mbm)
            }
            Err(_failed) => Err(StartFault::Driver),
        }
    }
}
