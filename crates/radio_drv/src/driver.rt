//! Drivers.

ghost use Rattle.std.specs.Prelude.{◌≡◌, ◌≤◌, List, ℕ, Bool, Option, Some, IsTrue, MatchResult};
ghost use Rattle.reg_base.specs.Causes.{HasCause, Rose};
ghost use Rattle.radio_drv.specs.Air.{HasPlace, started, stopped, powered};
ghost use Rattle.radio_drv.specs.declared.on_air.CheckTold.{CheckTold};
ghost use Rattle.radio_drv.specs.declared.on_air.OnAir.{OnAir};

use crate::iface::IfIndex;
use crate::on_air::{CheckTold, OnAir};
use chan_def::ChanDef;

/// A driver did not do what it was told.
#[derive(Clone, Copy, Debug, PartialEq, Eq)]
pub struct DriverFailed;

/// The driver of one radio (`struct cfg80211_ops`). Its meaning is the list of what is on air, at most
/// eight entries, each interface once; the check last told; and the count of its faults, which never
/// falls and stops at `u64::MAX`. A steady driver's never rises.
pub trait Driver: Drop {
    ghost on_air: { Self → List OnAir };

    ghost told: { Self → Option CheckTold };

    ghost count: { Self → ℕ };

    ghost steady: { Self → Bool };

    /// Puts the interface on air (`start_ap` and its like): its entry is replaced in its place, or added at
    /// the end. `DriverFailed` leaves the list, and comes only where the count rose.
    fn start(&mut self, iface: IfIndex, chan: ChanDef, power_mbm: u16) -> Result<(), DriverFailed>
        requires { HasPlace (on_air self.old) iface }
        ensures air { MatchResult result
            (λ _. on_air self.new ≡ started (record { iface = iface; chan = chan; power_mbm = power_mbm }) (on_air self.old))
            (λ _. on_air self.new ≡ on_air self.old) }
        ensures told { told self.new ≡ told self.old }
        ensures cause { HasCause (count self.old) (count self.new) result }
        ensures steady { steady self.new ≡ steady self.old }
        ensures never { IsTrue (steady self.old) → Rose (count self.old) (count self.new) → ⊥ };

    /// Takes the interface off the air, if it is on it (`stop_ap` and its like).
    fn stop(&mut self, iface: IfIndex)
        ensures air { on_air self.new ≡ stopped iface (on_air self.old) }
        ensures told { told self.new ≡ told self.old }
        ensures later { count self.old ≤ count self.new }
        ensures steady { steady self.new ≡ steady self.old }
        ensures never { IsTrue (steady self.old) → Rose (count self.old) (count self.new) → ⊥ };

    /// Begins a check for radar (CAC, `start_radar_detection`), which is then the one last told. `DriverFailed`
    /// leaves the one before, and comes only where the count rose.
    fn begin_check(
        &mut self,
        iface: IfIndex,
        chan: ChanDef,
        length_ms: u32,
    ) -> Result<(), DriverFailed>
        ensures air { on_air self.new ≡ on_air self.old }
        ensures told { MatchResult result
            (λ _. told self.new ≡ Some (record { iface = iface; chan = chan; length_ms = length_ms }))
            (λ _. told self.new ≡ told self.old) }
        ensures cause { HasCause (count self.old) (count self.new) result }
        ensures steady { steady self.new ≡ steady self.old }
        ensures never { IsTrue (steady self.old) → Rose (count self.old) (count self.new) → ⊥ };

    /// Changes the power of the interface, in mBm, if it is on air (`set_tx_power`).
    fn set_power(&mut self, iface: IfIndex, power_mbm: u16)
        ensures air { on_air self.new ≡ powered iface power_mbm (on_air self.old) }
        ensures told { told self.new ≡ told self.old }
        ensures later { count self.old ≤ count self.new }
        ensures steady { steady self.new ≡ steady self.old }
        ensures never { IsTrue (steady self.old) → Rose (count self.old) (count self.new) → ⊥ };

    /// How often a call failed.
    fn faults(&self) -> u64
        ensures faults { result ≡ count self.now };
}
