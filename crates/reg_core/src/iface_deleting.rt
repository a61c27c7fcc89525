//! Interfaces that go.

ghost use Rattle.std.specs.Prelude.{◌≡◌, ◌<◌, ◌+◌, ◌∷◌, [], List, None, MatchResult, IsSomeAnd, OnErr, length};
ghost use Rattle.rule_tables.specs.declared.domain.Domain.{Domain};
ghost use Rattle.reg_journal.specs.declared.effects.TheConstants.{MOST_EFFECTS};
ghost use Rattle.reg_journal.specs.Due.{EachMayFollow};
ghost use Rattle.reg_journal.specs.Facts.{Journal, ended};
ghost use Rattle.reg_journal.specs.Present.{Iface, named, operation_of};
ghost use Rattle.reg_journal.specs.Refusals.{LacksIface};
ghost use Rattle.reg_core.specs.Kept.{Keeps, StandsFor};
ghost use Rattle.reg_core.specs.Stepping.{IsReady};
ghost use Rattle.core_parts.specs.Changes.{IsInterfaceOf};
ghost use Rattle.core_parts.specs.Contexts.{IsOf};
ghost use Rattle.reg_core.specs.inner.Removals.{AddsEnds, AreEnds, IsEndOf, Releases};

use crate::core_state::Core;
use crate::drivers::DriverRow;
use core_parts::{
    Change, Changes, Interface, add_change, checked_channel, effects_of, no_changes, with_radio,
};
use dfs_states::DfsBook;
use radio_drv::Name;
use reg_journal::{Effects, Refusal};

/// What the interface, which ends, gives up where it has no operation.
fn drop_of(interface: &Interface, book: &DfsBook) -> Option<Change>
    ensures { (db : List Domain) (J : Journal) (x : Iface) → IsOf db J x book.now interface.now → operation_of J x.index ≡ None → Releases J x result }
{
    match checked_channel(book, interface) {
        Some(_chan) => Some(Change::Dropped(*interface)),
        None => None,
    }
}

/// What the interface, which ends, gives up: its operation, or else its running check.
fn release_of(interface: &Interface, book: &DfsBook) -> Option<Change>
    ensures { (db : List Domain) (J : Journal) (x : Iface) → IsOf db J x book.now interface.now → Releases J x result }
{
    match interface.operation {
        Some(_operation) => Some(Change::Stopped(*interface)),
        None => drop_of(interface, book),
    }
}

/// Adds what comes as the interface ends: it gives up what it does, and goes.
pub(crate) fn add_end(changes: &mut Changes, interface: &Interface, book: &DfsBook)
    requires room { length changes.old + 1 < MOST_EFFECTS }
    ensures added { (db : List Domain) (J : Journal) (x : Iface) → IsOf db J x book.now interface.now
        → AddsEnds J (x ∷ []) changes.old changes.new }
{
    add_change(changes, release_of(interface, book));
    add_change(changes, Some(Change::Ended(*interface)));
}

impl Core {
    /// The interface goes.
    pub(crate) fn end_iface(&mut self, interface: &Interface)
        ensures kept { (db : List Domain) (J : Journal) (x : Iface) → Keeps db self.old J → IsInterfaceOf J x interface.now
            → EachMayFollow db (ended interface.now.index ∷ J) → Keeps db self.new (ended interface.now.index ∷ J) }
    {
        self.interfaces.remove(interface.index);
    }

    /// What comes as the interface of this name ends.
    fn ends_named(&self, name: &Name, changes: &mut Changes) -> Result<(), Refusal>
        requires empty { changes.old ≡ [] }
        ensures { (db : List Domain) (J : Journal) → Keeps db self.now J → MatchResult result
            (λ _. IsSomeAnd (named J name.now) (λ x. AreEnds J (x ∷ []) changes.new)) (LacksIface J name.now) }
    {
        let (interface, radio) = match with_radio(self.interfaces.as_slice(), &self.radios, name) {
            Ok(found) => found,
            Err(refusal) => return Err(refusal),
        };
        add_end(changes, interface, &radio.book);
        Ok(())
    }

    /// The interface of this name goes (`NL80211_CMD_DEL_INTERFACE`). Its operation stops first, or its check
    /// is dropped. Its driver is told.
    pub(crate) fn del_iface<D: DriverRow>(
        &mut self,
        name: &Name,
        drivers: &mut D,
    ) -> Result<Effects, Refusal>
        requires ready { IsReady self.old (D.seen drivers.old) }
        ensures gone { (db : List Domain) (J : Journal) → StandsFor db self.old J → MatchResult result
            (λ effects. IsSomeAnd (named J name.now) (λ x. IsEndOf db J (x ∷ []) self.new (D.seen drivers.old) (D.seen drivers.new) effects))
            (LacksIface J name.now) }
        ensures core_stays { OnErr result (self.new ≡ self.old) }
        ensures drivers_stay { OnErr result (D.seen drivers.new ≡ D.seen drivers.old) }
    {
        let mut changes = no_changes();
        self.ends_named(name, &mut changes)?;
        self.take_all(changes.as_slice(), drivers);
        Ok(effects_of(changes.as_slice()))
    }
}
