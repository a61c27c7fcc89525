//! Power settings of interfaces.

ghost use Rattle.std.specs.Prelude.{◌≡◌, ◌∷◌, List, MatchResult, OnErr};
ghost use Rattle.rule_tables.specs.declared.domain.Domain.{Domain};
ghost use Rattle.chan_def.specs.Covered.{IsValidDef};
ghost use Rattle.reg_journal.specs.Due.{EachMayFollow};
ghost use Rattle.reg_journal.specs.Facts.{Journal, set_to};
ghost use Rattle.reg_journal.specs.Granted.{IsPermitted};
ghost use Rattle.reg_journal.specs.Permits.{EndsOperation};
ghost use Rattle.reg_journal.specs.Present.{Iface, with_setting};
ghost use Rattle.reg_journal.specs.Refusals.{SetPowerCauses};
ghost use Rattle.reg_core.specs.Kept.{Keeps, StandsFor};
ghost use Rattle.reg_core.specs.Stepping.{IsReady};
ghost use Rattle.reg_core.specs.inner.Deciding.{IsCore};
ghost use Rattle.core_parts.specs.Judging.{IsSwept};
ghost use Rattle.reg_core.specs.inner.Settings.{MaySet, SetsPowerOf};

use crate::core_state::Core;
use crate::drivers::DriverRow;
use crate::sweep::repowered;
use chan_flags::PowerSetting;
use core_parts::{
    Change, Interface, Radio, Running, add_change, effects_of, no_changes, permit, with_radio,
};
use radio_drv::Name;
use reg_journal::{Effects, Refusal};

/// The power in mBm with which the interface's operation may go on with the setting, or what ends it.
fn power_with(
    interface: &Interface,
    operation: &Running,
    radio: &Radio,
    indoor: bool,
    setting: PowerSetting,
) -> Result<u16, Refusal>
    requires valid { IsValidDef operation.now.chan }
    ensures { (db : List Domain) (J : Journal) (x : Iface) → IsSwept db J x interface.now radio.now indoor
        → MatchResult result (IsPermitted db J (record x { setting = setting }) operation.now.chan) (EndsOperation db J (record x { setting = setting }) operation.now.chan) }
{
    let verdict = radio
        .chans
        .verdict(&operation.chan, interface.kind, indoor, setting);
    permit(verdict, interface.kind, radio, &operation.chan)
}

impl Core {
    /// The index of the interface of this name, and what becomes of its operation with the setting.
    fn settable(&self, name: &Name, setting: PowerSetting) -> Result<(u32, Option<Change>), Refusal>
        requires core { IsCore self.now }
        ensures { (db : List Domain) (J : Journal) → StandsFor db self.now J → MatchResult result
            (λ p. MaySet db J name.now setting p.0 p.1) (SetPowerCauses db J name.now setting) }
    {
        let (interface, radio) = match with_radio(self.interfaces.as_slice(), &self.radios, name) {
            Ok(found) => found,
            Err(refusal) => return Err(refusal),
        };
        let Some(operation) = &interface.operation else {
            return Ok((interface.index, None));
        };
        match power_with(interface, operation, radio, self.indoor, setting) {
            Ok(power_mbm) => Ok((interface.index, repowered(interface, operation, power_mbm))),
            Err(refusal) => Err(refusal),
        }
    }

    /// The interface of this index has the power setting from now on.
    fn keep_setting(&mut self, index: u32, setting: PowerSetting)
        ensures kept { (db : List Domain) (J : Journal) → Keeps db self.old J → EachMayFollow db (set_to index setting ∷ J)
            → Keeps db self.new (set_to index setting ∷ J) }
    {
        self.interfaces.set_setting(index, setting);
    }

    /// The interface of this name gets the power setting (`NL80211_ATTR_WIPHY_TX_POWER_SETTING`). Its
    /// operation goes on with the power that the setting gives, and its driver is told where that is
    /// another one.
    pub(crate) fn change_setting<D: DriverRow>(
        &mut self,
        name: &Name,
        setting: PowerSetting,
        drivers: &mut D,
    ) -> Result<Effects, Refusal>
        requires ready { IsReady self.old (D.seen drivers.old) }
        ensures set { (db : List Domain) (J : Journal) → StandsFor db self.old J → MatchResult result
            (SetsPowerOf db J name.now setting self.new (D.seen drivers.old) (D.seen drivers.new)) (SetPowerCauses db J name.now setting) }
        ensures core_stays { OnErr result (self.new ≡ self.old) }
        ensures drivers_stay { OnErr result (D.seen drivers.new ≡ D.seen drivers.old) }
    {
        let (index, change) = self.settable(name, setting)?;
        self.keep_setting(index, setting);
        let mut changes = no_changes();
        add_change(&mut changes, change);
        self.take_all(changes.as_slice(), drivers);
        Ok(effects_of(changes.as_slice()))
    }
}
