//! The calls that decide a request without memory: none of them can fail for the want of it, however
//! long the core has run. `Core::step` goes through them.

ghost use Rattle.std.specs.Prelude.{List, Option};
ghost use Rattle.rule_tables.specs.declared.domain.Domain.{Domain};
ghost use Rattle.radio_drv.specs.Seen.{Seen};
ghost use Rattle.reg_journal.specs.Facts.{Journal};
ghost use Rattle.reg_journal.specs.declared.request.Request.TheVariants.{At, Radar, SetPower, Start, Stop, Check};
ghost use Rattle.reg_core.specs.Kept.{StandsFor};
ghost use Rattle.reg_core.specs.Stepping.{IsReady, OneStep, checking_reply, done_reply, started_reply, swept_reply};

use crate::core_state::Core;
use crate::drivers::DriverRow;
use crate::starting::StartFault;
use chan_def::{ChanDef, Kind};
use chan_flags::PowerSetting;
use radio_drv::Name;
use reg_hints::RadioNo;
use reg_journal::{Effects, Refusal};

impl Core {
    /// It is `now`, in ms.
    pub fn at(&mut self, now: u64) -> Result<(), Refusal>
        ensures step { (db : List Domain) (J : Journal) (row : List (Option Seen)) → StandsFor db self.old J
            → OneStep db J (At now) self.old self.new row row (done_reply result) }
        ensures ready { (row : List (Option Seen)) → IsReady self.old row → IsReady self.new row }
    {
        self.advance_to(now)
    }

    /// The radio meets radar on the channel (`cfg80211_radar_event`). What can't go on stops or is dropped.
    pub fn radar<D: DriverRow>(
        &mut self,
        radio: RadioNo,
        chan: &ChanDef,
        drivers: &mut D,
    ) -> Result<Effects, Refusal>
        requires ready { IsReady self.old (D.seen drivers.old) }
        ensures step { (db : List Domain) (J : Journal) → StandsFor db self.old J → OneStep db J (Radar radio chan.now) self.old self.new
            (D.seen drivers.old) (D.seen drivers.new) (swept_reply result) }
        ensures ready { IsReady self.new (D.seen drivers.new) }
    {
        self.meet_radar(radio, chan, drivers)
    }

    /// The interface of this name starts to operate on the channel, with the power in mBm that is answered
    /// (`nl80211_start_ap` and its like).
    pub fn start<D: DriverRow>(
        &mut self,
        name: &Name,
        kind: Kind,
        chan: &ChanDef,
        drivers: &mut D,
    ) -> Result<u16, Refusal>
        requires ready { IsReady self.old (D.seen drivers.old) }
        ensures step { (db : List Domain) (J : Journal) → StandsFor db self.old J → OneStep db J (Start name.now kind chan.now) self.old self.new
            (D.seen drivers.old) (D.seen drivers.new) (started_reply result) }
        ensures ready { IsReady self.new (D.seen drivers.new) }
    {
        match self.begin_operation(name, kind, chan, drivers) {
            Ok(power_mbm) => Ok(power_mbm),
            Err(StartFault::Refused(refusal)) => Err(refusal),
            Err(StartFault::Driver) => Err(Refusal::DriverFailed),
        }
    }

    /// The interface of this name stops to operate (`nl80211_stop_ap` and its like).
    pub fn stop<D: DriverRow>(
        &mut self,
        name: &Name,
        kind: Kind,
        drivers: &mut D,
    ) -> Result<(), Refusal>
        requires ready { IsReady self.old (D.seen drivers.old) }
        ensures step { (db : List Domain) (J : Journal) → StandsFor db self.old J → OneStep db J (Stop name.now kind) self.old self.new
            (D.seen drivers.old) (D.seen drivers.new) (done_reply result) }
        ensures ready { IsReady self.new (D.seen drivers.new) }
    {
        self.end_operation(name, kind, drivers)
    }

    /// The interface of this name begins to check the channel for radar (CAC,
    /// `nl80211_start_radar_detection`), for so many ms as is answered.
    pub fn begin_check<D: DriverRow>(
        &mut self,
        name: &Name,
        chan: &ChanDef,
        drivers: &mut D,
    ) -> Result<u32, Refusal>
        requires ready { IsReady self.old (D.seen drivers.old) }
        ensures step { (db : List Domain) (J : Journal) → StandsFor db self.old J → OneStep db J (Check name.now chan.now) self.old self.new
            (D.seen drivers.old) (D.seen drivers.new) (checking_reply result) }
        ensures ready { IsReady self.new (D.seen drivers.new) }
    {
        match self.launch_check(name, chan, drivers) {
            Ok(length_ms) => Ok(length_ms),
            Err(StartFault::Refused(refusal)) => Err(refusal),
            Err(StartFault::Driver) => Err(Refusal::DriverFailed),
        }
    }

    /// The interface of this name gets the power setting (`NL80211_ATTR_WIPHY_TX_POWER_SETTING`). Its
    /// operation goes on with the power that the setting gives.
    pub fn set_power<D: DriverRow>(
        &mut self,
        name: &Name,
        setting: PowerSetting,
        drivers: &mut D,
    ) -> Result<Effects, Refusal>
        requires ready { IsReady self.old (D.seen drivers.old) }
        ensures step { (db : List Domain) (J : Journal) → StandsFor db self.old J → OneStep db J (SetPower name.now setting) self.old self.new
            (D.seen drivers.old) (D.seen drivers.new) (swept_reply result) }
        ensures ready { IsReady self.new (D.seen drivers.new) }
    {
        self.change_setting(name, setting, drivers)
    }
}
