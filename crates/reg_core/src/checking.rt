//! Checks for radar that begin.

ghost use Rattle.std.specs.Prelude.{◌≡◌, ◌∷◌, List, Bool, MatchResult};
ghost use Rattle.rule_tables.specs.declared.domain.Domain.{Domain};
ghost use Rattle.chan_def.specs.declared.definition.ChanDef.{ChanDef};
ghost use Rattle.reg_journal.specs.Due.{EachMayFollow};
ghost use Rattle.reg_journal.specs.Facts.{Journal, check_begun};
ghost use Rattle.reg_journal.specs.Present.{Iface};
ghost use Rattle.reg_journal.specs.Refusals.{CheckCauses};
ghost use Rattle.reg_core.specs.Kept.{Keeps, StandsFor};
ghost use Rattle.reg_core.specs.Stepping.{IsReady};
ghost use Rattle.core_parts.specs.Changes.{IsInterfaceOf};
ghost use Rattle.reg_core.specs.inner.Checking.{HasCheckable, HasRestingIface, IsCheckOutcome};
ghost use Rattle.reg_core.specs.inner.Deciding.{IsCore};

use crate::core_state::Core;
use crate::drivers::DriverRow;
use crate::starting::StartFault;
use chan_def::ChanDef;
use core_parts::{
    BookCall, Interface, Radio, channel_of, interface_named, judge_check, note_at, radio_at,
};
use radio_drv::{IfIndex, Name};
use reg_journal::Refusal;

impl Core {
    /// The interface of this name and its radio, where it sends first and does nothing.
    fn free_to_check(&self, name: &Name) -> Result<(&Interface, &Radio), Refusal>
        requires core { IsCore self.now }
        ensures free { (db : List Domain) (J : Journal) → Keeps db self.now J → MatchResult result
            (λ p. HasRestingIface db J name.now p.0.now p.1.now)
            (λ e. (c : ChanDef) (failed : Bool) → CheckCauses db J name.now c failed e) }
    {
        let Some(interface) = interface_named(self.interfaces.as_slice(), name) else {
            return Err(Refusal::NoInterface(*name));
        };
        if !interface.kind.initiates() {
            return Err(Refusal::WrongType);
        }
        let Some(radio) = radio_at(&self.radios, interface.radio) else {
            unreachable!();
        };
        if let Some(_chan) = channel_of(interface, &radio.book) {
            return Err(Refusal::Busy);
        }
        Ok((interface, radio))
    }

    /// The interface of this name and the length in ms of its check of the channel, or why it may not begin.
    fn checkable(&self, name: &Name, chan: &ChanDef) -> Result<(Interface, u32), Refusal>
        requires core { IsCore self.now }
        ensures check { (db : List Domain) (J : Journal) → Keeps db self.now J → MatchResult result
            (λ p. HasCheckable db J name.now chan.now p.0 p.1)
            (λ e. (failed : Bool) → CheckCauses db J name.now chan.now failed e) }
    {
        let (interface, radio) = self.free_to_check(name)?;
        if !chan.valid() {
            return Err(Refusal::BadChannel);
        }
        match judge_check(
            interface,
            self.interfaces.as_slice(),
            radio,
            self.indoor,
            chan,
        ) {
            Ok(length_ms) => Ok((*interface, length_ms)),
            Err(refusal) => Err(refusal),
        }
    }

    /// The interface's check of the channel begins, and takes so many ms.
    fn keep_check(&mut self, interface: &Interface, chan: &ChanDef, length_ms: u32)
        ensures kept { (db : List Domain) (J : Journal) (x : Iface) → Keeps db self.old J → IsInterfaceOf J x interface.now
            → EachMayFollow db (check_begun interface.now.index chan.now length_ms ∷ J)
            → Keeps db self.new (check_begun interface.now.index chan.now length_ms ∷ J) }
    {
        let call = BookCall::Begin(interface.slot, *chan, length_ms);
        note_at(&mut self.radios, interface.radio, &call);
    }

    /// The interface of this name begins to check the channel for radar (`nl80211_start_radar_detection`), for
    /// so many ms as is answered. Its driver is told.
    pub(crate) fn launch_check<D: DriverRow>(
        &mut self,
        name: &Name,
        chan: &ChanDef,
        drivers: &mut D,
    ) -> Result<u32, StartFault>
        requires ready { IsReady self.old (D.seen drivers.old) }
        ensures check { (db : List Domain) (J : Journal) → StandsFor db self.old J → IsCheckOutcome db J name.now chan.now self.old self.new
            (D.seen drivers.old) (D.seen drivers.new) result }
    {
        let (interface, length_ms) = match self.checkable(name, chan) {
            Ok(found) => found,
            Err(refusal) => return Err(StartFault::Refused(refusal)),
        };
        match drivers.begin_check(interface.radio, IfIndex(interface.index), *chan, length_ms) {
            Ok(()) => {
                self.keep_check(&interface, chan, length_ms);
                Ok(length_ms)
            }
            Err(_failed) => Err(StartFault::Driver),
        }
    }
}
