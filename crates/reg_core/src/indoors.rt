//! The radios' place.

ghost use Rattle.std.specs.Prelude.{◌≡◌, ◌∷◌, ℕ, List, false, length, slice_index_or};
ghost use Rattle.rule_tables.specs.declared.domain.Domain.{Domain};
ghost use Rattle.reg_journal.specs.Facts.{Journal, indoor_is};
ghost use Rattle.reg_journal.specs.Present.{ifaces_of};
ghost use Rattle.reg_core.specs.Kept.{Keeps, StandsFor};
ghost use Rattle.reg_core.specs.inner.Deciding.{IsCore};
ghost use Rattle.reg_core.specs.inner.Sweeping.{AreMoved, IsSweepOf, wanted};

use crate::core_state::Core;
use crate::drivers::DriverRow;
use core_parts::{effects_of, no_changes};
use reg_hints::RadioNo;
use reg_journal::Effects;

/// No radio's region changed.
pub(crate) fn nowhere() -> [bool; 8]
    ensures { (r : ℕ) → slice_index_or result r false ≡ false }
{
    [false, false, false, false, false, false, false, false]
}

impl Core {
    /// Sweeps the interfaces, or those of one radio: what can't go on stops or is dropped, and what the
    /// rules give another power goes on with it. It is told of each radio whether its region changed
    /// since the checks on it began.
    pub(crate) fn settle<D: DriverRow>(
        &mut self,
        moved: &[bool; 8],
        only: &Option<RadioNo>,
        drivers: &mut D,
    ) -> Effects
        requires core { IsCore self.old }
        requires eight { length (D.seen drivers.old) ≡ 8 }
        ensures swept { (db : List Domain) (J : Journal) → Keeps db self.old J → AreMoved db J moved.now
            → IsSweepOf db J (wanted only.now (ifaces_of J)) self.new (D.seen drivers.old) (D.seen drivers.new) result }
    {
        let mut changes = no_changes();
        self.sweep(moved, only, &mut changes);
        self.take_all(changes.as_slice(), drivers);
        effects_of(changes.as_slice())
    }

    /// The radios are indoors from now on, or not.
    pub(crate) fn set_indoor<D: DriverRow>(&mut self, on: bool, drivers: &mut D) -> Effects
        requires core { IsCore self.old }
        requires eight { length (D.seen drivers.old) ≡ 8 }
        ensures swept { (db : List Domain) (J : Journal) → StandsFor db self.old J
            → IsSweepOf db (indoor_is on ∷ J) (ifaces_of J) self.new (D.seen drivers.old) (D.seen drivers.new) result }
    {
        self.indoor = on;
        self.settle(&nowhere(), &None, drivers)
    }
}
