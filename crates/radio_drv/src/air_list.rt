//! A list of what is on air, which takes no memory.

ghost use Rattle.std.specs.Prelude.{◌≡◌, ℕ, ◌<◌, ◌≤◌, [], ◌∷◌, ◌++◌, length, slice_set, slice_index_or, List, MatchOption};
ghost use Rattle.radio_drv.specs.Air.{HasPlace, started, stopped, powered, with_power};
ghost use Rattle.radio_drv.specs.inner.First.{IsFirstOf};

use crate::iface::IfIndex;
use crate::on_air::OnAir;
use chan_def::{ChanDef, MOST_IFACES, Width};
use reg_lists::Few;
use std::marker::Model;

/// What fills the places that aren't used.
const UNUSED: OnAir = OnAir {
    iface: IfIndex(0),
    chan: ChanDef {
        control_khz: 0,
        width: Width::Noht,
        centre_khz: 0,
    },
    power_mbm: 0,
};

/// What is on air: as many entries at most as a radio has interfaces.
#[derive(Debug, Drop)]
pub(crate) struct AirList {
    entries: Few<OnAir, MOST_IFACES>,
}

impl Model for AirList {
    ghost use Rattle.std.specs.Prelude.{List};
    ghost use Rattle.radio_drv.specs.declared.on_air.OnAir.{OnAir};

    ghost Value = { List OnAir };

    ghost view = { λ l. l.entries };
}

impl AirList {
    /// Nothing is on air.
    pub(crate) fn new() -> AirList
        ensures empty { result ≡ [] }
    {
        AirList {
            entries: Few::new(UNUSED),
        }
    }

    /// All of it.
    pub(crate) fn as_slice(&self) -> &[OnAir]
        ensures items { result.now ≡ self.now }
        ensures few { length self.now ≤ MOST_IFACES }
    {
        self.entries.as_slice()
    }

    fn push(&mut self, entry: OnAir)
        requires room { length self.old < MOST_IFACES }
        ensures pushed { self.new ≡ self.old ++ entry ∷ [] }
    {
        let _pushed = self.entries.push(entry);
    }

    /// Replaces the interface's entry in its place, or adds it at the end.
    pub(crate) fn start(&mut self, entry: OnAir)
        requires place { HasPlace self.old entry.iface }
        ensures started { self.new ≡ started entry self.old }
    {
        match place_of(self.as_slice(), entry.iface) {
            Some(k) => self.entries.set(k, entry),
            None => self.push(entry),
        }
    }

    /// Takes the interface's entry away.
    pub(crate) fn stop(&mut self, iface: IfIndex)
        ensures stopped { self.new ≡ stopped iface self.old }
    {
        *self = without(self.as_slice(), iface);
    }

    /// Changes the power of the interface's entry.
    pub(crate) fn set_power(&mut self, iface: IfIndex, power_mbm: u16)
        ensures powered { self.new ≡ powered iface power_mbm self.old }
    {
        *self = with_powers(self.as_slice(), iface, power_mbm);
    }
}

/// Where the interface's entry stands.
fn place_of(air: &[OnAir], iface: IfIndex) -> Option<usize>
    ensures { MatchOption result ((k : ℕ) (d : OnAir) → k < length air.now → (slice_index_or air.now k d).iface ≡ iface → ⊥)
        (IsFirstOf air.now iface) }
{
    for (k, entry) in air.iter().enumerate() {
        if entry.iface.is_same(&iface) {
            return Some(k);
        }
    }
    None
}

/// The entries of other interfaces.
fn without(air: &[OnAir], iface: IfIndex) -> AirList
    requires { length air.now ≤ MOST_IFACES }
    ensures { result ≡ stopped iface air.now }
{
    let mut others = AirList::new();
    for entry in air {
        if entry.iface.is_same(&iface) {
            continue;
        }
        others.push(*entry);
    }
    others
}

/// The entry, with this power where it is the interface's.
fn powered_entry(entry: OnAir, iface: IfIndex, power_mbm: u16) -> OnAir
    ensures { result ≡ with_power iface power_mbm entry }
{
    if entry.iface.is_same(&iface) {
        return OnAir { power_mbm, ..entry };
    }
    entry
}

/// The entries, the interface's with this power.
fn with_powers(air: &[OnAir], iface: IfIndex, power_mbm: u16) -> AirList
    requires { length air.now ≤ MOST_IFACES }
    ensures { result ≡ powered iface power_mbm air.now }
{
    let mut list = AirList::new();
    for entry in air {
        list.push(powered_entry(*entry, iface, power_mbm));
    }
    list
}
