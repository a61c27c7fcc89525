//! Radios that go.

ghost use Rattle.std.specs.Prelude.{◌≡◌, ◌==◌, ◌<◌, ◌+◌, ◌∷◌, [], List, Contains, MatchResult, OnErr, filter, length};
ghost use Rattle.rule_tables.specs.declared.domain.Domain.{Domain};
ghost use Rattle.reg_journal.specs.declared.effects.TheConstants.{MOST_EFFECTS};
ghost use Rattle.reg_journal.specs.Causes.{IsFree};
ghost use Rattle.reg_journal.specs.Due.{EachMayFollow};
ghost use Rattle.reg_journal.specs.Facts.{Journal, radio_removed};
ghost use Rattle.reg_journal.specs.Present.{Iface, ifaces_of, ifaces_on};
ghost use Rattle.reg_journal.specs.Refusals.{LacksRadio};
ghost use Rattle.reg_core.specs.Kept.{Keeps, StandsFor};
ghost use Rattle.core_parts.specs.Kept.{KeepsRadio, kept};
ghost use Rattle.reg_core.specs.Stepping.{IsReady};
ghost use Rattle.reg_core.specs.inner.Deciding.{IsCore};
ghost use Rattle.reg_core.specs.inner.Removals.{AddsEnds, AreEnds, AreOnRadio, AreOnSomeRadio, RadioGoes};

use crate::core_state::Core;
use crate::drivers::DriverRow;
use crate::iface_deleting::add_end;
use core_parts::{Changes, Interface, Radio, RadioPlace, effects_of, no_changes, radio_at};
use reg_hints::RadioNo;
use reg_journal::{Effects, Refusal};

/// Adds what comes as the interface ends, if it is one of the radio's.
fn add_end_on(changes: &mut Changes, interface: &Interface, number: RadioNo, radio: &Radio)
    requires room { length changes.old + 1 < MOST_EFFECTS }
    ensures added { (db : List Domain) (J : Journal) (x : Iface) → EachMayFollow db J → KeepsRadio db J number radio.now → Contains (ifaces_of J) x
        → interface.now ≡ kept J x → AddsEnds J (filter (λ y. y.radio == number) (x ∷ [])) changes.old changes.new }
{
    if interface.is_on(number) {
        add_end(changes, interface, &radio.book);
    }
}

/// Adds what comes as the radio's interfaces end, in order of creation.
fn add_ends_on(changes: &mut Changes, interfaces: &[Interface], number: RadioNo, radio: &Radio)
    requires parts { AreOnSomeRadio number interfaces.now radio.now }
    requires empty { changes.old ≡ [] }
    ensures added { (db : List Domain) (J : Journal) → AreOnRadio db J number interfaces.now radio.now → AreEnds J (ifaces_on J number) changes.new }
{
    for interface in interfaces {
        add_end_on(changes, interface, number, radio);
    }
}

impl Core {
    /// What comes as the interfaces of this radio end. `NoRadio` where it isn't there.
    fn ends_on(&self, number: RadioNo, changes: &mut Changes) -> Result<(), Refusal>
        requires core { IsCore self.now }
        requires empty { changes.old ≡ [] }
        ensures { (db : List Domain) (J : Journal) → Keeps db self.now J → MatchResult result
            (λ _. IsFree (LacksRadio J number) × AreEnds J (ifaces_on J number) changes.new) (LacksRadio J number) }
    {
        let Some(radio) = radio_at(&self.radios, number) else {
            return Err(Refusal::NoRadio(number));
        };
        add_ends_on(changes, self.interfaces.as_slice(), number, radio);
        Ok(())
    }

    /// The radio, whose interfaces have ended, goes, and its number with it.
    fn remove_radio(&mut self, number: RadioNo)
        ensures kept { (db : List Domain) (J : Journal) → Keeps db self.old J → EachMayFollow db (radio_removed number ∷ J)
            → Keeps db self.new (radio_removed number ∷ J) }
    {
        self.radios[number.get() as usize] = RadioPlace::Removed;
    }

    /// The radio goes: each of its interfaces gives up what it does and ends, its driver is told and
    /// then dropped, and its number isn't used again.
    pub(crate) fn del_radio<D: DriverRow>(
        &mut self,
        number: RadioNo,
        drivers: &mut D,
    ) -> Result<Effects, Refusal>
        requires ready { IsReady self.old (D.seen drivers.old) }
        ensures gone { (db : List Domain) (J : Journal) → StandsFor db self.old J → MatchResult result
            (RadioGoes db J number self.new (D.seen drivers.old) (D.seen drivers.new)) (LacksRadio J number) }
        ensures core_stays { OnErr result (self.new ≡ self.old) }
        ensures drivers_stay { OnErr result (D.seen drivers.new ≡ D.seen drivers.old) }
    {
        let mut changes = no_changes();
        self.ends_on(number, &mut changes)?;
        self.take_all(changes.as_slice(), drivers);
        self.remove_radio(number);
        drivers.drop_driver(number);
        Ok(effects_of(changes.as_slice()))
    }
}
