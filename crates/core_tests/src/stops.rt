//! A driver that counts how often it is told to stop.

ghost use Rattle.std.specs.Prelude.{◌≡◌, [], None, false};

use crate::calls::{RULES, Way, follow, opened};
use chan_def::ChanDef;
use radio_drv::{Driver, DriverFailed, IfIndex, SimDriver};
use std::test::Fail;

/// A driver that never fails, and answers in place of its faults how often it was told to stop: a row of
/// drivers shows no more of one than that.
#[derive(Drop)]
pub struct CountsStops {
    driver: SimDriver,
    stops: u64,
}

impl CountsStops {
    /// Nothing is on air, and no check was told.
    pub fn new() -> CountsStops
        ensures air { result.driver.air ≡ [] }
        ensures told { result.driver.told ≡ None }
    {
        CountsStops {
            driver: SimDriver::new(),
            stops: 0,
        }
    }
}

impl Driver for CountsStops {
    ghost on_air = { λ d. d.driver.air };

    ghost told = { λ d. d.driver.told };

    ghost count = { λ d. d.stops };

    ghost steady = { λ _. false };

    fn start(&mut self, iface: IfIndex, chan: ChanDef, power_mbm: u16) -> Result<(), DriverFailed> {
        self.driver.start(iface, chan, power_mbm)
    }

    fn stop(&mut self, iface: IfIndex) {
        self.stops = self.stops.saturating_add(1);
        self.driver.stop(iface);
    }

    fn begin_check(
        &mut self,
        iface: IfIndex,
        chan: ChanDef,
        length_ms: u32,
    ) -> Result<(), DriverFailed> {
        self.driver.begin_check(iface, chan, length_ms)
    }

    fn set_power(&mut self, iface: IfIndex, power_mbm: u16) {
        self.driver.set_power(iface, power_mbm);
    }

    fn faults(&self) -> u64 {
        self.stops
    }
}

/// A check is dropped, and three operations end: by custom rules, on request, and with their interface. A stop
/// that is refused isn't told.
const ENDED: &[u8] = b"> radio add phy1 bands 2,5 width 160 radar 160 power 3000 contexts 2
ok
> iw phy phy1 interface add ap0 type __ap
ok
> iw reg set US
hint replaced
> iw dev ap0 cac trigger freq 5260
checking 60000
> radar phy1 5260
ok
\tdropped ap0
> iw dev ap0 ap stop
refused: not running
> iw dev ap0 ap start home 2412 100 2
started 3000
> radio rules phy1 (5150 - 5350 @ 80), (20)
ok
\tstopped ap0
> iw dev ap0 ap start home 5180 100 2
started 2000
> iw dev ap0 set txpower limit 1000
ok
\tpower ap0 1000
> iw dev ap0 ap stop
ok
> iw dev ap0 ap start home 5180 100 2
started 1000
> iw dev ap0 del
ok
\tstopped ap0
";

#[test]
fn drivers_are_told_what_ends(rt: HostRuntime) -> Result<(), Fail> {
    let alloc = rt.alloc();
    let (mut core, mut drivers) = opened(alloc, RULES, &[])?;
    let followed = follow(alloc, Way::Step, &mut core, ENDED, &mut drivers)?;
    assert!(rt; followed);
    let stops = match drivers.as_slice() {
        [_, Some(driver), ..] => driver.faults(),
        _ => 0,
    };
    assert!(rt; stops == 4);
    Ok(())
}
