//! Radios that come.

ghost use Rattle.std.specs.Prelude.{◌≡◌, ◌↔◌, false, List, IsTrue, MatchResult};
ghost use Rattle.rule_tables.specs.declared.domain.Domain.{Domain};
ghost use Rattle.chan_flags.specs.Profiles.{IsProfile};
ghost use Rattle.reg_journal.specs.Facts.{Journal, radio_added};
ghost use Rattle.reg_journal.specs.Refusals.{RadioAddCauses};
ghost use Rattle.reg_core.specs.inner.Deciding.{Declines, IsCore, TakesFact};
ghost use Rattle.reg_core.specs.Kept.{Keeps};

use crate::core_state::Core;
use crate::declined::Declined;
use chan_flags::Profile;
use core_parts::{Radio, RadioPlace};
use reg_hints::RadioNo;
use reg_journal::Refusal;

impl Core {
    /// The radio comes. It has neither custom rules nor a driver's hint.
    pub(crate) fn add_radio(&mut self, radio: RadioNo, profile: Profile) -> Result<(), Declined>
        requires core { IsCore self.old }
        requires profile { IsProfile profile }
        ensures taken { (db : List Domain) (J : Journal) → Keeps db self.old J → MatchResult result
            (λ _. TakesFact db J (RadioAddCauses J radio) (radio_added radio profile) self.new)
            (Declines (RadioAddCauses J radio) self.old self.new) }
    {
        let number = radio.get() as usize;
        if !self.radios[number].is_free() {
            return Err(Declined::Refused(Refusal::SlotUsed(radio)));
        }
        let alloc = self.interfaces.allocator();
        let added = Radio::new(alloc, &self.domains, &self.hints, profile, self.clock)?;
        self.radios[number] = RadioPlace::There(added);
        Ok(())
    }
}
