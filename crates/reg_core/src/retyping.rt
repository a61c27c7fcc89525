//! Interfaces that get another type.

ghost use Rattle.std.specs.Prelude.{◌≡◌, ◌∷◌, List, MatchResult, IsSomeAnd};
ghost use Rattle.rule_tables.specs.declared.domain.Domain.{Domain};
ghost use Rattle.reg_journal.specs.Due.{EachMayFollow};
ghost use Rattle.reg_journal.specs.Facts.{Journal, typed};
ghost use Rattle.reg_journal.specs.Present.{named};
ghost use Rattle.reg_journal.specs.Refusals.{IsInUse, SetTypeCauses};
ghost use Rattle.reg_core.specs.Kept.{Keeps};
ghost use Rattle.reg_core.specs.inner.Settings.{IsRetyping};

use crate::core_state::Core;
use crate::forecast::is_used;
use chan_def::Kind;
use core_parts::with_radio;
use radio_drv::Name;
use reg_journal::Refusal;

impl Core {
    /// The index of the interface of this name, where it has neither an operation nor a running check.
    fn resting(&self, name: &Name) -> Result<u32, Refusal>
        ensures { (db : List Domain) (J : Journal) → Keeps db self.now J → MatchResult result
            (λ i. IsSomeAnd (named J name.now) (λ x. (i ≡ x.index) × (IsInUse J x → ⊥))) (SetTypeCauses J name.now) }
    {
        let (interface, radio) = match with_radio(self.interfaces.as_slice(), &self.radios, name) {
            Ok(found) => found,
            Err(refusal) => return Err(refusal),
        };
        if is_used(interface, &radio.book) {
            return Err(Refusal::Busy);
        }
        Ok(interface.index)
    }

    /// The interface of this index has the kind from now on.
    fn retype(&mut self, index: u32, kind: Kind)
        ensures kept { (db : List Domain) (J : Journal) → Keeps db self.old J → EachMayFollow db (typed index kind ∷ J)
            → Keeps db self.new (typed index kind ∷ J) }
    {
        self.interfaces.set_kind(index, kind);
    }

    /// The interface of this name gets another type (`NL80211_CMD_SET_INTERFACE`).
    pub(crate) fn set_type(&mut self, name: &Name, kind: Kind) -> Result<(), Refusal>
        ensures typed { (db : List Domain) (J : Journal) → Keeps db self.old J → IsRetyping db J name.now kind self.old self.new result }
    {
        let index = self.resting(name)?;
        self.retype(index, kind);
        Ok(())
    }
}
