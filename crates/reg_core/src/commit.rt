//! The changes that come, one after the other.

ghost use Rattle.std.specs.Prelude.{◌≡◌, ◌∷◌, ℕ, List, None, Some, length};
ghost use Rattle.rule_tables.specs.declared.domain.Domain.{Domain};
ghost use Rattle.reg_journal.specs.Due.{EachMayFollow, MayFollow};
ghost use Rattle.reg_journal.specs.Facts.{Fact, Journal, after, check_dropped, powered};
ghost use Rattle.reg_journal.specs.Present.{Iface};
ghost use Rattle.reg_core.specs.Kept.{Keeps};
ghost use Rattle.core_parts.specs.Kept.{KeepsRadios};
ghost use Rattle.core_parts.specs.Changes.{AreEachTold, CanAllCome, IsInterfaceOf, IsTold, fact_of, facts_of, interface_in};
ghost use Rattle.core_parts.specs.Operating.{TellsRunning, book_operation};

use crate::core_state::Core;
use crate::drivers::DriverRow;
use core_parts::{BookCall, Change, Interface, RadioPlace, Running, note_at};
use dfs_states::IfSlot;
use radio_drv::IfIndex;

/// What the book of a slot is told of the operation of its interface.
fn operation_call(slot: IfSlot, operation: &Option<Running>) -> BookCall
    ensures { result ≡ book_operation slot operation.now }
{
    match operation {
        Some(operation) => BookCall::Operate(slot, operation.chan),
        None => BookCall::Rest(slot),
    }
}

/// The interface, which is one of a radio's, has this operation from now on, or none. Its radio's book is
/// told where it sends first.
fn operate_at(radios: &mut [RadioPlace], interface: &Interface, operation: &Option<Running>)
    requires eight { length radios.old ≡ 8 }
    ensures kept { (db : List Domain) (J : Journal) (x : Iface) (f : Fact) → KeepsRadios db J radios.old
        → IsInterfaceOf J x interface.now → TellsRunning f x.index operation.now → EachMayFollow db (f ∷ J) → KeepsRadios db (f ∷ J) radios.new }
{
    if interface.kind.initiates() {
        note_at(
            radios,
            interface.radio,
            &operation_call(interface.slot, operation),
        );
    }
}

impl Core {
    /// The interface has this operation from now on, or none.
    pub(crate) fn operate(&mut self, interface: &Interface, operation: Option<Running>)
        ensures kept { (db : List Domain) (J : Journal) (x : Iface) (f : Fact) → Keeps db self.old J → IsInterfaceOf J x interface.now
            → TellsRunning f x.index operation → EachMayFollow db (f ∷ J) → Keeps db self.new (f ∷ J) }
    {
        operate_at(&mut self.radios, interface, &operation);
        self.interfaces.set_operation(interface.index, operation);
    }

    /// The interface's operation goes on with this power, in mBm.
    fn repower(&mut self, interface: &Interface, power_mbm: u16)
        ensures kept { (db : List Domain) (J : Journal) (x : Iface) → Keeps db self.old J → IsInterfaceOf J x interface.now
            → EachMayFollow db (powered interface.now.index power_mbm ∷ J) → Keeps db self.new (powered interface.now.index power_mbm ∷ J) }
    {
        self.interfaces.set_power(interface.index, power_mbm);
    }

    /// The interface's check is dropped.
    fn drop_check(&mut self, interface: &Interface)
        ensures kept { (db : List Domain) (J : Journal) (x : Iface) → Keeps db self.old J → IsInterfaceOf J x interface.now
            → EachMayFollow db (check_dropped interface.now.index ∷ J) → Keeps db self.new (check_dropped interface.now.index ∷ J) }
    {
        note_at(
            &mut self.radios,
            interface.radio,
            &BookCall::DropCheck(interface.slot),
        );
    }

    /// Keeps the change.
    pub(crate) fn commit(&mut self, change: &Change)
        ensures kept { (db : List Domain) (J : Journal) (x : Iface) → Keeps db self.old J → MayFollow db J (fact_of change.now)
            → IsInterfaceOf J x (interface_in change.now) → Keeps db self.new (fact_of change.now ∷ J) }
    {
        match change {
            Change::Stopped(interface) => self.operate(interface, None),
            Change::Powered(interface, power_mbm) => self.repower(interface, *power_mbm),
            Change::Dropped(interface) => self.drop_check(interface),
            Change::Ended(interface) => self.end_iface(interface),
        }
    }

    /// Takes the changes one after the other: the driver of each is told, and the core keeps it.
    pub(crate) fn take_all<D: DriverRow>(&mut self, changes: &[Change], drivers: &mut D)
        requires eight { length (D.seen drivers.old) ≡ 8 }
        ensures kept { (db : List Domain) (J : Journal) → Keeps db self.old J → CanAllCome db J changes.now → Keeps db self.new (after (facts_of changes.now) J) }
        ensures told { AreEachTold changes.now (D.seen drivers.old) (D.seen drivers.new) }
        ensures eight { length (D.seen drivers.new) ≡ 8 }
    {
        for change in changes {
            tell(drivers, change);
            self.commit(change);
        }
    }
}

/// Tells the driver of the interface's radio of the change. A check that is dropped is told as a stop.
pub(crate) fn tell<D: DriverRow>(drivers: &mut D, change: &Change)
    requires eight { length (D.seen drivers.old) ≡ 8 }
    ensures told { IsTold change.now (D.seen drivers.old) (D.seen drivers.new) }
    ensures eight { length (D.seen drivers.new) ≡ 8 }
{
    match change {
        Change::Stopped(interface) => drivers.stop(interface.radio, IfIndex(interface.index)),
        Change::Powered(interface, power_mbm) => {
            drivers.set_power(interface.radio, IfIndex(interface.index), *power_mbm);
        }
        Change::Dropped(interface) => drivers.stop(interface.radio, IfIndex(interface.index)),
        Change::Ended(_interface) => {}
    }
}
