//! Names, and both drivers, by themselves and behind boxes.

ghost use Rattle.std.specs.Prelude.{◌≡◌, []};

use chan_def::{ChanDef, Width};
use radio_drv::{CheckTold, Driver, DriverFailed, FailingDriver, IfIndex, Name, OnAir, SimDriver};
use std::test::Fail;

const CHAN: ChanDef = ChanDef {
    control_khz: 5_260_000,
    width: Width::W20,
    centre_khz: 5_260_000,
};

/// A check of the first interface.
const TOLD: CheckTold = CheckTold {
    iface: IfIndex(1),
    chan: CHAN,
    length_ms: 60_000,
};

const fn entry(iface: u32, power_mbm: u16) -> OnAir {
    OnAir {
        iface: IfIndex(iface),
        chan: CHAN,
        power_mbm,
    }
}

#[test]
fn names(rt: HostRuntime) {
    let bad: [&[u8]; 4] = [b"", b"wlan0 ", b"w\x7f", b"abcdefghijklmnop"];
    for (k, bytes) in bad.iter().enumerate() {
        assert!(rt; Name::new(bytes).is_none(), "name {k}");
    }
    let name = Name::new(b"abcdefghijklmn~").expect(&rt, "a name");
    assert!(rt; name.as_bytes() == b"abcdefghijklmn~".as_slice());
    assert!(rt; !name.is_same(&Name::new(b"!").expect(&rt, "a name")));
}

/// Makes each call once, and tells which of the two that may fail did.
fn drive(driver: &mut Box<dyn Driver>) -> [bool; 2]
    requires { on_air driver.old ≡ [] }
{
    let started = driver.start(IfIndex(1), CHAN, 2000);
    let checked = driver.begin_check(IfIndex(1), CHAN, 60_000);
    driver.set_power(IfIndex(1), 1000);
    driver.stop(IfIndex(1));
    [started.is_err(), checked.is_err()]
}

#[test]
fn drivers(rt: HostRuntime) -> Result<(), Fail> {
    let mut driver = SimDriver::new();
    assert!(rt; driver.start(IfIndex(1), CHAN, 2000).is_ok());
    assert!(rt; driver.start(IfIndex(2), CHAN, 1000).is_ok());
    assert!(rt; driver.start(IfIndex(1), CHAN, 1500).is_ok());
    assert!(rt; driver.on_air() == [entry(1, 1500), entry(2, 1000)].as_slice());
    driver.set_power(IfIndex(2), 300);
    driver.stop(IfIndex(1));
    driver.stop(IfIndex(3));
    assert!(rt; driver.on_air() == [entry(2, 300)].as_slice());
    assert!(rt; driver.check_told().is_none());

    let mut driver = FailingDriver::new(rt.alloc(), &[1, 4])?;
    assert!(rt; driver.start(IfIndex(1), CHAN, 2000) == Err(DriverFailed));
    assert!(rt; driver.on_air().is_empty());
    assert!(rt; driver.start(IfIndex(1), CHAN, 2000).is_ok());
    assert!(rt; driver.begin_check(IfIndex(1), CHAN, 60_000).is_ok());
    assert!(rt; driver.begin_check(IfIndex(2), CHAN, 1) == Err(DriverFailed));
    assert!(rt; driver.check_told() == Some(TOLD));
    assert!(rt; driver.on_air() == [entry(1, 2000)].as_slice());
    assert!(rt; driver.faults() == 2);

    let mut driver: Box<dyn Driver> = Box::new(rt.alloc(), SimDriver::new())?;
    assert!(rt; drive(&mut driver) == [false, false]);
    assert!(rt; driver.faults() == 0);
    let failing = FailingDriver::new(rt.alloc(), &[2])?;
    let mut driver: Box<dyn Driver> = Box::new(rt.alloc(), failing)?;
    assert!(rt; drive(&mut driver) == [false, true]);
    assert!(rt; driver.faults() == 1);
    Ok(())
}
