//! The reports of radios and interfaces.

ghost use Rattle.std.specs.Prelude.{◌≡◌, [], ◌∷◌, ◌++◌, IfOk, IsSomeAnd, List, MatchResult, OnOk, map};
ghost use Rattle.rule_tables.specs.declared.domain.Domain.{Domain};
ghost use Rattle.reg_journal.specs.Causes.{IsFree};
ghost use Rattle.reg_journal.specs.Dumps.{IsIfaceReport, IsRadioReport, state_of};
ghost use Rattle.reg_journal.specs.Facts.{Journal};
ghost use Rattle.reg_journal.specs.Present.{Iface, check_of, named, operation_of};
ghost use Rattle.reg_journal.specs.Refusals.{LacksIface, LacksRadio};
ghost use Rattle.core_parts.specs.Contexts.{IsOf};
ghost use Rattle.reg_core.specs.inner.Deciding.{IsReason};
ghost use Rattle.core_parts.specs.Interfaces.{interfaces_on};
ghost use Rattle.core_parts.specs.Reading.{shown_interface};
ghost use Rattle.reg_core.specs.Kept.{Keeps};

use crate::core_state::Core;
use crate::declined::Declined;
use chan_def::Kind;
use core_parts::{Interface, radio_at, with_radio};
use dfs_states::DfsBook;
use radio_drv::{IfIndex, Name};
use reg_hints::RadioNo;
use reg_journal::{IfaceList, IfaceReport, IfaceState, RadioReport, Refusal};
use reg_lists::OutOfMemory;
use std::alloc::Global;

// ---- radios

/// The interface as a radio report names it.
fn shown_interface(interface: &Interface) -> (Name, IfIndex, Kind)
    ensures { result ≡ shown_interface interface.now }
{
    (interface.name, IfIndex(interface.index), interface.kind)
}

/// Appends the interface where it is one of the radio's.
fn push_shown(
    list: &mut IfaceList,
    interface: &Interface,
    radio: RadioNo,
) -> Result<(), OutOfMemory>
    ensures { OnOk result (list.new ≡ list.old ++ map shown_interface (interfaces_on (interface.now ∷ []) radio)) }
{
    if interface.is_on(radio) {
        list.push(shown_interface(interface))?;
    }
    Ok(())
}

/// The radio's interfaces, in order of creation.
fn shown_interfaces(
    alloc: Global,
    interfaces: &[Interface],
    radio: RadioNo,
) -> Result<IfaceList, OutOfMemory>
    ensures { IfOk result (λ list. list ≡ map shown_interface (interfaces_on interfaces.now radio)) }
{
    let mut list = IfaceList::new(alloc);
    for interface in interfaces {
        push_shown(&mut list, interface, radio)?;
    }
    Ok(list)
}

// ---- interfaces

/// What the interface does where it has no operation: its running check, if any.
fn checking(interface: &Interface, book: &DfsBook) -> IfaceState
    ensures { (db : List Domain) (J : Journal) (x : Iface) → IsOf db J x book.now interface.now → operation_of J x.index ≡ None
        → result ≡ state_of (operation_of J x.index) (check_of J x.index) }
{
    match book.running(interface.slot) {
        Some((chan, until)) => IfaceState::Checking { chan, until },
        None => IfaceState::Idle,
    }
}

/// What the interface does.
fn state_of(interface: &Interface, book: &DfsBook) -> IfaceState
    ensures { (db : List Domain) (J : Journal) (x : Iface) → IsOf db J x book.now interface.now
        → result ≡ state_of (operation_of J x.index) (check_of J x.index) }
{
    match interface.operation {
        Some(operation) => IfaceState::Running {
            chan: operation.chan,
            power_mbm: operation.power_mbm,
        },
        None => checking(interface, book),
    }
}

impl Core {
    /// The report of the radio.
    pub(crate) fn radio_report(&self, radio: RadioNo) -> Result<RadioReport, Declined>
        ensures report { (db : List Domain) (J : Journal) → Keeps db self.now J
            → MatchResult result (λ report. IsFree (LacksRadio J radio) × IsRadioReport J radio report) (IsReason (LacksRadio J radio)) }
    {
        let Some(found) = radio_at(&self.radios, radio) else {
            return Err(Declined::Refused(Refusal::NoRadio(radio)));
        };
        let profile = found.chans.profile();
        let alloc = self.interfaces.allocator();
        match shown_interfaces(alloc, self.interfaces.as_slice(), radio) {
            Ok(ifaces) => Ok(RadioReport {
                radio,
                profile,
                ifaces,
            }),
            Err(OutOfMemory) => Err(Declined::OutOfMemory),
        }
    }

    /// The report of the interface of this name.
    pub(crate) fn iface_report(&self, name: &Name) -> Result<IfaceReport, Refusal>
        ensures report { (db : List Domain) (J : Journal) → Keeps db self.now J
            → MatchResult result (λ report. IsSomeAnd (named J name.now) (λ x. IsIfaceReport J x report)) (LacksIface J name.now) }
    {
        match with_radio(self.interfaces.as_slice(), &self.radios, name) {
            Ok((interface, radio)) => Ok(IfaceReport {
                name: interface.name,
                index: IfIndex(interface.index),
                radio: interface.radio,
                kind: interface.kind,
                setting: interface.setting,
                state: state_of(interface, &radio.book),
            }),
            Err(refusal) => Err(refusal),
        }
    }
}
