//! The drivers of the radios.

ghost use Rattle.std.specs.Prelude.{◌≡◌, List, None, Option, IsSome, length, map, slice_set, MatchResult};
ghost use Rattle.std.specs.Option.{option_map};
ghost use Rattle.radio_drv.specs.Air.{powered, started, stopped};
ghost use Rattle.radio_drv.specs.Seen.{Seen, seen as seen_one};
ghost use Rattle.reg_journal.specs.OnAir.{entry};
ghost use Rattle.reg_books.specs.DriverRows.{driver_at};
ghost use Rattle.reg_books.specs.Told.{DriverFails, DriverHears, HasRoom, OneGoes, DriverTakes};

use chan_def::ChanDef;
use radio_drv::{Driver, DriverFailed, IfIndex};
use reg_hints::RadioNo;

/// The drivers of the eight radios, by number. A radio that has gone has none.
pub type Drivers = Vec<Option<Box<dyn Driver>>>;

/// A row of drivers, one for each radio, by number. Its meaning is what is seen of each.
pub trait DriverRow {
    ghost seen: { Self → List (Option Seen) };

    /// Tells the radio's driver to put the interface on air (`start_ap` and its like), with a power in mBm.
    /// `DriverFailed` leaves what is on air, and comes only where the count of the driver's faults rose.
    fn start(
        &mut self,
        radio: RadioNo,
        iface: IfIndex,
        chan: ChanDef,
        power_mbm: u16,
    ) -> Result<(), DriverFailed>
        requires eight { length (seen self.old) ≡ 8 }
        requires room { HasRoom (driver_at (seen self.old) radio) iface }
        ensures told { MatchResult result
            (λ _. OneGoes radio (DriverTakes (started (entry iface chan power_mbm))) (seen self.old) (seen self.new))
            (λ _. OneGoes radio DriverFails (seen self.old) (seen self.new)) };

    /// Tells the radio's driver to take the interface off the air (`stop_ap` and its like).
    fn stop(&mut self, radio: RadioNo, iface: IfIndex)
        requires eight { length (seen self.old) ≡ 8 }
        ensures told { OneGoes radio (DriverTakes (stopped iface)) (seen self.old) (seen self.new) };

    /// Tells the radio's driver to check the channel for radar (CAC, `start_radar_detection`), for so many ms.
    /// `DriverFailed` leaves the check that was told before, and comes only where the count of the driver's
    /// faults rose.
    fn begin_check(
        &mut self,
        radio: RadioNo,
        iface: IfIndex,
        chan: ChanDef,
        length_ms: u32,
    ) -> Result<(), DriverFailed>
        requires eight { length (seen self.old) ≡ 8 }
        requires there { IsSome (driver_at (seen self.old) radio) }
        ensures told { MatchResult result
            (λ _. OneGoes radio (DriverHears (record { iface = iface; chan = chan; length_ms = length_ms })) (seen self.old) (seen self.new))
            (λ _. OneGoes radio DriverFails (seen self.old) (seen self.new)) };

    /// Tells the radio's driver that the interface, if it is on air, goes on with this power, in mBm
    /// (`set_tx_power`).
    fn set_power(&mut self, radio: RadioNo, iface: IfIndex, power_mbm: u16)
        requires eight { length (seen self.old) ≡ 8 }
        ensures told { OneGoes radio (DriverTakes (powered iface power_mbm)) (seen self.old) (seen self.new) };

    /// Drops the radio's driver, since the radio goes.
    fn drop_driver(&mut self, radio: RadioNo)
        requires eight { length (seen self.old) ≡ 8 }
        ensures gone { seen self.new ≡ slice_set (seen self.old) radio None };
}

impl DriverRow for Drivers {
    ghost seen = { λ d. map (λ o. option_map (λ b. seen_one
        ((Driver-box b).on_air b.value) ((Driver-box b).told b.value) ((Driver-box b).count b.value) ((Driver-box b).steady b.value)) o) d.items };

    fn start(
        &mut self,
        radio: RadioNo,
        iface: IfIndex,
        chan: ChanDef,
        power_mbm: u16,
    ) -> Result<(), DriverFailed> {
        match start_on(&mut self[radio.get() as usize], iface, chan, power_mbm) {
            Ok(()) => Ok(()),
            Err(failed) => Err(failed),
        }
    }

    fn stop(&mut self, radio: RadioNo, iface: IfIndex) {
        stop_on(&mut self[radio.get() as usize], iface);
    }

    fn begin_check(
        &mut self,
        radio: RadioNo,
        iface: IfIndex,
        chan: ChanDef,
        length_ms: u32,
    ) -> Result<(), DriverFailed> {
        match begin_on(&mut self[radio.get() as usize], iface, chan, length_ms) {
            Ok(()) => Ok(()),
            Err(failed) => Err(failed),
        }
    }

    fn set_power(&mut self, radio: RadioNo, iface: IfIndex, power_mbm: u16) {
        power_on(&mut self[radio.get() as usize], iface, power_mbm);
    }

    fn drop_driver(&mut self, radio: RadioNo) {
        self[radio.get() as usize] = None;
    }
}

/// Tells the driver of a place to put the interface on air.
fn start_on(
    place: &mut Option<Box<dyn Driver>>,
    iface: IfIndex,
    chan: ChanDef,
    power_mbm: u16,
) -> Result<(), DriverFailed>
    requires room { HasRoom (option_map (λ b. seen_one (on_air b) (told b) (count b) (steady b)) place.old) iface }
    ensures told { MatchResult result
        (λ _. DriverTakes (started (entry iface chan power_mbm))
        (option_map (λ b. seen_one (on_air b) (told b) (count b) (steady b)) place.old)
        (option_map (λ b. seen_one (on_air b) (told b) (count b) (steady b)) place.new))
        (λ _. DriverFails
        (option_map (λ b. seen_one (on_air b) (told b) (count b) (steady b)) place.old)
        (option_map (λ b. seen_one (on_air b) (told b) (count b) (steady b)) place.new)) }
{
    match place {
        Some(driver) => driver.start(iface, chan, power_mbm),
        None => unreachable!(),
    }
}

/// Tells the driver of a place to take the interface off the air.
fn stop_on(place: &mut Option<Box<dyn Driver>>, iface: IfIndex)
    ensures told { DriverTakes (stopped iface)
        (option_map (λ b. seen_one (on_air b) (told b) (count b) (steady b)) place.old)
        (option_map (λ b. seen_one (on_air b) (told b) (count b) (steady b)) place.new) }
{
    if let Some(driver) = place {
        driver.stop(iface);
    }
}

/// Tells the driver of a place to give the interface this power, in mBm.
fn power_on(place: &mut Option<Box<dyn Driver>>, iface: IfIndex, power_mbm: u16)
    ensures told { DriverTakes (powered iface power_mbm)
        (option_map (λ b. seen_one (on_air b) (told b) (count b) (steady b)) place.old)
        (option_map (λ b. seen_one (on_air b) (told b) (count b) (steady b)) place.new) }
{
    if let Some(driver) = place {
        driver.set_power(iface, power_mbm);
    }
}

/// Tells the driver of a place to check the channel for radar.
fn begin_on(
    place: &mut Option<Box<dyn Driver>>,
    iface: IfIndex,
    chan: ChanDef,
    length_ms: u32,
) -> Result<(), DriverFailed>
    requires there { IsSome place.old }
    ensures told { MatchResult result
        (λ _. DriverHears (record { iface = iface; chan = chan; length_ms = length_ms })
        (option_map (λ b. seen_one (on_air b) (told b) (count b) (steady b)) place.old)
        (option_map (λ b. seen_one (on_air b) (told b) (count b) (steady b)) place.new))
        (λ _. DriverFails
        (option_map (λ b. seen_one (on_air b) (told b) (count b) (steady b)) place.old)
        (option_map (λ b. seen_one (on_air b) (told b) (count b) (steady b)) place.new)) }
{
    match place {
        Some(driver) => driver.begin_check(iface, chan, length_ms),
        None => unreachable!(),
    }
}
