//! A driver without a radio that fails at listed calls, to try what a caller does then.

ghost use Rattle.std.specs.Prelude.{◌≡◌, ◌≤◌, ◌↔◌, [], None, false, Contains, IfOk, IsErr, IsTrue, MatchResult, Some};
ghost use Rattle.reg_base.specs.Causes.{HasCause, counted};
ghost use Rattle.radio_drv.specs.Air.{HasPlace, started, stopped, powered};
ghost use Rattle.radio_drv.specs.declared.on_air.CheckTold.{CheckTold};
ghost use Rattle.radio_drv.specs.declared.on_air.OnAir.{OnAir};

use crate::driver::{Driver, DriverFailed};
use crate::iface::IfIndex;
use crate::on_air::{CheckTold, OnAir};
use crate::sim::SimDriver;
use chan_def::ChanDef;
use reg_lists::OutOfMemory;
use std::alloc::Global;
use std::marker::Model;

/// A driver that fails at the listed ones of the calls `start` and `begin_check`, counted together from
/// 1, and does what it is told at every other call.
#[derive(Debug, Drop)]
pub struct FailingDriver {
    driver: SimDriver,
    failing: Vec<u64>,
    calls: u64,
    faults: u64,
}

impl Model for FailingDriver {
    ghost use Rattle.radio_drv.specs.Simulated.{FailingSimulated};

    ghost Value = { FailingSimulated };

    ghost view = { λ d. record {
      air = d.driver.air;
      told = d.driver.told;
      failing = d.failing.items;
      calls = d.calls;
      faults = d.faults;
    } };
}

impl FailingDriver {
    /// Nothing is on air, no check was told, and the calls of these numbers are to fail.
    pub fn new(alloc: Global, calls: &[u64]) -> Result<FailingDriver, OutOfMemory>
        ensures air { IfOk result (λ d. d.air ≡ []) }
        ensures told { IfOk result (λ d. d.told ≡ None) }
        ensures failing { IfOk result (λ d. d.failing ≡ calls.now) }
        ensures calls { IfOk result (λ d. d.calls ≡ 0) }
        ensures faults { IfOk result (λ d. d.faults ≡ 0) }
    {
        Ok(FailingDriver {
            driver: SimDriver::new(),
            failing: Vec::from_slice(alloc, calls)?,
            calls: 0,
            faults: 0,
        })
    }

    /// What is on air.
    pub fn on_air(&self) -> &[OnAir]
        ensures air { result.now ≡ self.now.air }
    {
        self.driver.on_air()
    }

    /// The check last told.
    pub fn check_told(&self) -> Option<CheckTold>
        ensures told { result ≡ self.now.told }
    {
        self.driver.check_told()
    }

    /// Counts a call, and answers whether it is to fail.
    fn fails_next(&mut self) -> bool
        ensures fails { IsTrue result ↔ Contains self.old.failing (counted self.old.calls) }
        ensures calls { self.new ≡ record self.old { calls = counted self.old.calls } }
    {
        self.calls = self.calls.saturating_add(1);
        self.failing.contains(&self.calls)
    }

    /// Counts a failed call.
    fn count_fault(&mut self)
        ensures faults { self.new ≡ record self.old { faults = counted self.old.faults } }
        ensures later { self.old.faults ≤ self.new.faults }
    {
        self.faults = self.faults.saturating_add(1);
    }
}

impl Driver for FailingDriver {
    ghost on_air = { λ d. d.air };

    ghost told = { λ d. d.told };

    ghost count = { λ d. d.faults };

    ghost steady = { λ _. false };

    fn start(&mut self, iface: IfIndex, chan: ChanDef, power_mbm: u16) -> Result<(), DriverFailed>
        requires { HasPlace self.old.air iface }
        ensures fails { IsErr result ↔ Contains self.old.failing (counted self.old.calls) }
        ensures air { MatchResult result
            (λ _. self.new.air ≡ started (record { iface = iface; chan = chan; power_mbm = power_mbm }) self.old.air)
            (λ _. self.new.air ≡ self.old.air) }
        ensures told { self.new.told ≡ self.old.told }
        ensures cause { HasCause self.old.faults self.new.faults result }
        ensures faults { MatchResult result (λ _. self.new.faults ≡ self.old.faults)
            (λ _. self.new.faults ≡ counted self.old.faults) }
        ensures failing { self.new.failing ≡ self.old.failing }
        ensures calls { self.new.calls ≡ counted self.old.calls }
    {
        if self.fails_next() {
            self.count_fault();
            return Err(DriverFailed);
        }
        self.driver.start(iface, chan, power_mbm)
    }

    fn stop(&mut self, iface: IfIndex)
        ensures stopped { self.new ≡ record self.old { air = stopped iface self.old.air } }
    {
        self.driver.stop(iface);
    }

    fn begin_check(
        &mut self,
        iface: IfIndex,
        chan: ChanDef,
        length_ms: u32,
    ) -> Result<(), DriverFailed>
        ensures fails { IsErr result ↔ Contains self.old.failing (counted self.old.calls) }
        ensures air { self.new.air ≡ self.old.air }
        ensures told { MatchResult result
            (λ _. self.new.told ≡ Some (record { iface = iface; chan = chan; length_ms = length_ms }))
            (λ _. self.new.told ≡ self.old.told) }
        ensures cause { HasCause self.old.faults self.new.faults result }
        ensures faults { MatchResult result (λ _. self.new.faults ≡ self.old.faults)
            (λ _. self.new.faults ≡ counted self.old.faults) }
        ensures failing { self.new.failing ≡ self.old.failing }
        ensures calls { self.new.calls ≡ counted self.old.calls }
    {
        if self.fails_next() {
            self.count_fault();
            return Err(DriverFailed);
        }
        self.driver.begin_check(iface, chan, length_ms)
    }

    fn set_power(&mut self, iface: IfIndex, power_mbm: u16)
        ensures powered { self.new ≡ record self.old { air = powered iface power_mbm self.old.air } }
    {
        self.driver.set_power(iface, power_mbm);
    }

    fn faults(&self) -> u64 {
        self.faults
    }
}
