//! A driver without a radio.

ghost use Rattle.std.specs.Prelude.{◌≡◌, [], None, true};

use crate::air_list::AirList;
use crate::driver::{Driver, DriverFailed};
use crate::iface::IfIndex;
use crate::on_air::{CheckTold, OnAir};
use chan_def::ChanDef;
use std::marker::Model;

/// A driver that does what it is told, and never fails.
#[derive(Debug, Drop)]
pub struct SimDriver {
    air: AirList,
    told: Option<CheckTold>,
}

impl Model for SimDriver {
    ghost use Rattle.radio_drv.specs.Simulated.{Simulated};

    ghost Value = { Simulated };

    ghost view = { λ d. record { air = d.air; told = d.told } };
}

impl SimDriver {
    /// Nothing is on air, and no check was told.
    pub fn new() -> SimDriver
        ensures air { result.air ≡ [] }
        ensures told { result.told ≡ None }
    {
        SimDriver {
            air: AirList::new(),
            told: None,
        }
    }

    /// What is on air.
    pub fn on_air(&self) -> &[OnAir]
        ensures air { result.now ≡ self.now.air }
    {
        self.air.as_slice()
    }

    /// The check last told.
    pub fn check_told(&self) -> Option<CheckTold>
        ensures told { result ≡ self.now.told }
    {
        self.told
    }
}

impl Driver for SimDriver {
    ghost on_air = { λ d. d.air };

    ghost told = { λ d. d.told };

    ghost count = { λ _. 0 };

    ghost steady = { λ _. true };

    fn start(&mut self, iface: IfIndex, chan: ChanDef, power_mbm: u16) -> Result<(), DriverFailed> {
        let entry = OnAir {
            iface,
            chan,
            power_mbm,
        };
        self.air.start(entry);
        Ok(())
    }

    fn stop(&mut self, iface: IfIndex) {
        self.air.stop(iface);
    }

    fn begin_check(
        &mut self,
        iface: IfIndex,
        chan: ChanDef,
        length_ms: u32,
    ) -> Result<(), DriverFailed> {
        let told = CheckTold {
            iface,
            chan,
            length_ms,
        };
        self.told = Some(told);
        Ok(())
    }

    fn set_power(&mut self, iface: IfIndex, power_mbm: u16) {
        self.air.set_power(iface, power_mbm);
    }

    fn faults(&self) -> u64 {
        0
    }
}
