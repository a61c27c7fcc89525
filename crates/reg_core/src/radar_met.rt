//! Radar that a radio meets.

ghost use Rattle.std.specs.Prelude.{◌≡◌, ◌∷◌, List, MatchOption, MatchResult, OnErr, length};
ghost use Rattle.rule_tables.specs.declared.domain.Domain.{Domain};
ghost use Rattle.reg_journal.specs.Causes.{IsFree};
ghost use Rattle.reg_journal.specs.Due.{MayFollow};
ghost use Rattle.reg_journal.specs.Facts.{Journal, radar_met};
ghost use Rattle.reg_journal.specs.Present.{ifaces_on};
ghost use Rattle.reg_journal.specs.Refusals.{RadarCauses};
ghost use Rattle.reg_core.specs.Kept.{Keeps, StandsFor};
ghost use Rattle.reg_core.specs.inner.Deciding.{IsCore};
ghost use Rattle.reg_core.specs.inner.Sweeping.{IsSweepOf};

use crate::core_state::Core;
use crate::drivers::DriverRow;
use crate::indoors::nowhere;
use chan_def::ChanDef;
use core_parts::{BookCall, note_at, radio_at};
use reg_hints::RadioNo;
use reg_journal::{Effects, Refusal};

impl Core {
    /// Why the radio can't meet radar on the channel.
    fn radar_event_refusal(&self, radio: RadioNo, chan: &ChanDef) -> Option<Refusal>
        ensures { (db : List Domain) (J : Journal) → Keeps db self.now J
            → MatchOption result (IsFree (RadarCauses J radio chan.now) × MayFollow db J (radar_met radio chan.now)) (RadarCauses J radio chan.now) }
    {
        let Some(_radio) = radio_at(&self.radios, radio) else {
            return Some(Refusal::NoRadio(radio));
        };
        if !chan.valid() {
            return Some(Refusal::BadChannel);
        }
        None
    }

    /// The radio meets radar on the channel (`cfg80211_radar_event`).
    pub(crate) fn meet_radar<D: DriverRow>(
        &mut self,
        radio: RadioNo,
        chan: &ChanDef,
        drivers: &mut D,
    ) -> Result<Effects, Refusal>
        requires core { IsCore self.old }
        requires eight { length (D.seen drivers.old) ≡ 8 }
        ensures swept { (db : List Domain) (J : Journal) → StandsFor db self.old J → MatchResult result
            (λ effects. IsFree (RadarCauses J radio chan.now)
            × IsSweepOf db (radar_met radio chan.now ∷ J) (ifaces_on J radio) self.new (D.seen drivers.old) (D.seen drivers.new) effects)
            (RadarCauses J radio chan.now) }
        ensures core_stays { OnErr result (self.new ≡ self.old) }
        ensures drivers_stay { OnErr result (D.seen drivers.new ≡ D.seen drivers.old) }
    {
        if let Some(refusal) = self.radar_event_refusal(radio, chan) {
            return Err(refusal);
        }
        note_at(&mut self.radios, radio, &BookCall::Radar(*chan));
        Ok(self.settle(&nowhere(), &Some(radio), drivers))
    }
}
