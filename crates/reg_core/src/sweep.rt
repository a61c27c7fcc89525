//! Sweeps: what a change of rules, of radar or of the radios' place does to operations and checks.

ghost use Rattle.std.specs.Prelude.{◌≡◌, ◌<◌, [], List, None, Some, MatchBool, false, length, slice_get, slice_index_or};
ghost use Rattle.rule_tables.specs.declared.domain.Domain.{Domain};
ghost use Rattle.chan_def.specs.Covered.{IsValidDef};
ghost use Rattle.reg_journal.specs.Facts.{Journal};
ghost use Rattle.reg_journal.specs.Present.{Check, Iface, Operation, check_of, ifaces_of, operation_of};
ghost use Rattle.reg_journal.specs.Sweep.{MustDrop, RegionChangedInCheck};
ghost use Rattle.reg_core.specs.Kept.{Keeps};
ghost use Rattle.core_parts.specs.Kept.{kept_operation};
ghost use Rattle.reg_core.specs.inner.Deciding.{IsCore};
ghost use Rattle.core_parts.specs.Judging.{IsSwept, IsSweptSomewhere};
ghost use Rattle.reg_core.specs.inner.Sweeping.{AreEach, AreMoved, Judges, is_wanted, wanted};
ghost use Rattle.core_parts.specs.Repowering.{repowered};

use crate::core_state::Core;
use chan_def::ChanDef;
use chan_flags::PowerSetting;
use core_parts::{
    Change, Changes, Interface, Radio, Running, add_change, check_permit, checked_channel, permit,
    radio_at,
};
use reg_hints::RadioNo;

/// The operation goes on with this power, in mBm.
pub(crate) fn repowered(
    interface: &Interface,
    operation: &Running,
    power_mbm: u16,
) -> Option<Change>
    ensures { result ≡ repowered interface.now operation.now power_mbm }
{
    if operation.power_mbm == power_mbm {
        None
    } else {
        Some(Change::Powered(*interface, power_mbm))
    }
}

/// What becomes of the interface's operation.
fn change_of_operation(
    interface: &Interface,
    operation: &Running,
    radio: &Radio,
    indoor: bool,
) -> Option<Change>
    requires valid { IsValidDef operation.now.chan }
    ensures { (db : List Domain) (J : Journal) (x : Iface) (o : Operation) → IsSwept db J x interface.now radio.now indoor
        → operation_of J x.index ≡ Some o → operation.now ≡ kept_operation o → Judges db J x result }
{
    let verdict = radio
        .chans
        .verdict(&operation.chan, interface.kind, indoor, interface.setting);
    match permit(verdict, interface.kind, radio, &operation.chan) {
        Ok(power_mbm) => repowered(interface, operation, power_mbm),
        Err(_refusal) => Some(Change::Stopped(*interface)),
    }
}

/// Whether the interface's check of the channel has to go, where its radio's region changed since it
/// began or not.
fn must_drop(
    interface: &Interface,
    radio: &Radio,
    indoor: bool,
    moved: bool,
    chan: &ChanDef,
) -> bool
    requires valid { IsValidDef chan.now }
    ensures { (db : List Domain) (J : Journal) (x : Iface) (k : Check) → IsSwept db J x interface.now radio.now indoor → chan.now ≡ k.chan
        → MatchBool moved (RegionChangedInCheck db J x) (RegionChangedInCheck db J x → ⊥)
        → MatchBool result (MustDrop db J x k) (MustDrop db J x k → ⊥) }
{
    if moved {
        return true;
    }
    let verdict = radio
        .chans
        .verdict(chan, interface.kind, indoor, PowerSetting::Auto);
    match check_permit(verdict, interface.kind, radio, chan) {
        Ok(_length_ms) => false,
        Err(_refusal) => true,
    }
}

/// What becomes of the interface's check, where it has no operation.
fn change_of_check(
    interface: &Interface,
    radio: &Radio,
    indoor: bool,
    moved: bool,
) -> Option<Change>
    requires swept { IsSweptSomewhere interface.now radio.now indoor }
    ensures { (db : List Domain) (J : Journal) (x : Iface) → IsSwept db J x interface.now radio.now indoor → operation_of J x.index ≡ None
        → ((k : Check) → check_of J x.index ≡ Some k → MatchBool moved (RegionChangedInCheck db J x) (RegionChangedInCheck db J x → ⊥))
        → Judges db J x result }
{
    let Some(chan) = checked_channel(&radio.book, interface) else {
        return None;
    };
    if must_drop(interface, radio, indoor, moved, &chan) {
        Some(Change::Dropped(*interface))
    } else {
        None
    }
}

/// What becomes of the interface.
fn change_of(interface: &Interface, radio: &Radio, indoor: bool, moved: bool) -> Option<Change>
    requires swept { IsSweptSomewhere interface.now radio.now indoor }
    ensures { (db : List Domain) (J : Journal) (x : Iface) → IsSwept db J x interface.now radio.now indoor
        → ((k : Check) → check_of J x.index ≡ Some k → MatchBool moved (RegionChangedInCheck db J x) (RegionChangedInCheck db J x → ⊥))
        → Judges db J x result }
{
    match &interface.operation {
        Some(operation) => change_of_operation(interface, operation, radio, indoor),
        None => change_of_check(interface, radio, indoor, moved),
    }
}

/// Whether the interface is one of those that are asked for: of one radio, or any.
fn is_wanted(interface: &Interface, only: &Option<RadioNo>) -> bool
    ensures { (x : Iface) → interface.now.radio ≡ x.radio → result ≡ is_wanted only.now x }
{
    match only {
        Some(radio) => interface.is_on(*radio),
        None => true,
    }
}

/// The flag of the radio.
fn flag_of(flags: &[bool; 8], radio: RadioNo) -> bool
    ensures { result ≡ slice_index_or flags.now radio false }
{
    flags[radio.get() as usize]
}

impl Core {
    /// What becomes of the interface at place `k`, if it is asked for.
    fn change_at(&self, k: usize, moved: &[bool; 8], only: &Option<RadioNo>) -> Option<Change>
        requires core { IsCore self.now }
        requires within { k < length self.now.interfaces }
        ensures { (db : List Domain) (J : Journal) (x : Iface) → Keeps db self.now J → AreMoved db J moved.now → slice_get (ifaces_of J) k ≡ Some x
            → MatchBool (is_wanted only.now x) (Judges db J x result) (result ≡ None) }
    {
        let interface = &self.interfaces.as_slice()[k];
        if !is_wanted(interface, only) {
            return None;
        }
        let Some(radio) = radio_at(&self.radios, interface.radio) else {
            unreachable!();
        };
        change_of(
            interface,
            radio,
            self.indoor,
            flag_of(moved, interface.radio),
        )
    }

    /// What becomes of the interfaces, or of those of one radio, in order of creation. All are judged by
    /// what the core keeps now.
    pub(crate) fn sweep(&self, moved: &[bool; 8], only: &Option<RadioNo>, changes: &mut Changes)
        requires core { IsCore self.now }
        requires empty { changes.old ≡ [] }
        ensures judged { (db : List Domain) (J : Journal) → Keeps db self.now J → AreMoved db J moved.now
            → AreEach (Judges db J) (wanted only.now (ifaces_of J)) changes.new }
    {
        for k in 0..self.interfaces.len() {
            add_change(changes, self.change_at(k, moved, only));
        }
    }
}
