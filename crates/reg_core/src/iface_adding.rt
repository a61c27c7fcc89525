//! Interfaces that come.

ghost use Rattle.std.specs.Prelude.{◌≡◌, ◌+◌, List, MatchOption, MatchResult};
ghost use Rattle.rule_tables.specs.declared.domain.Domain.{Domain};
ghost use Rattle.reg_journal.specs.Causes.{IsFree};
ghost use Rattle.chan_def.specs.declared.kind.Kind.{Kind};
ghost use Rattle.reg_journal.specs.Due.{MayFollow};
ghost use Rattle.reg_journal.specs.Facts.{Journal, made};
ghost use Rattle.reg_journal.specs.Present.{made_of};
ghost use Rattle.reg_journal.specs.Refusals.{IfaceAddCauses};
ghost use Rattle.reg_core.specs.inner.Deciding.{Declines, IsCore, TakesFact};
ghost use Rattle.reg_core.specs.Kept.{Keeps};

use crate::core_state::Core;
use crate::declined::Declined;
use chan_def::Kind;
use chan_flags::PowerSetting;
use core_parts::{Interface, count_on, free_slot_on, interface_named, radio_at};
use radio_drv::Name;
use reg_hints::RadioNo;
use reg_journal::Refusal;

/// How many interfaces a radio may have.
const MOST_ON_RADIO: usize = 8;

impl Core {
    /// Why the interface can't come to the radio.
    fn iface_refusal(&self, radio: RadioNo, name: &Name) -> Option<Refusal>
        ensures due { (db : List Domain) (J : Journal) → Keeps db self.now J
            → MatchOption result ((kind : Kind) → MayFollow db J (made (made_of J + 1) name.now radio kind)) (λ _. Unit {0}) }
        ensures first { (db : List Domain) (J : Journal) → Keeps db self.now J
            → MatchOption result (IsFree (IfaceAddCauses J radio name.now)) (IfaceAddCauses J radio name.now) }
    {
        // That the name is one of its type is told by reading it.
        let _bytes = name.as_bytes();
        let Some(_radio) = radio_at(&self.radios, radio) else {
            return Some(Refusal::NoRadio(radio));
        };
        let interfaces = self.interfaces.as_slice();
        if let Some(_interface) = interface_named(interfaces, name) {
            return Some(Refusal::NameTaken(*name));
        }
        if count_on(interfaces, radio) >= MOST_ON_RADIO || self.made >= u32::MAX {
            return Some(Refusal::Full);
        }
        None
    }

    /// The interface comes to the radio, with the next index and the least slot that is free there.
    pub(crate) fn add_iface(
        &mut self,
        radio: RadioNo,
        name: Name,
        kind: Kind,
    ) -> Result<(), Declined>
        requires core { IsCore self.old }
        ensures taken { (db : List Domain) (J : Journal) → Keeps db self.old J → MatchResult result
            (λ _. TakesFact db J (IfaceAddCauses J radio name) (made (made_of J + 1) name radio kind) self.new)
            (Declines (IfaceAddCauses J radio name) self.old self.new) }
    {
        if let Some(refusal) = self.iface_refusal(radio, &name) {
            return Err(Declined::Refused(refusal));
        }
        let index = self.made + 1;
        let interface = Interface {
            index,
            name,
            radio,
            slot: free_slot_on(self.interfaces.as_slice(), radio),
            kind,
            setting: PowerSetting::Auto,
            operation: None,
        };
        self.interfaces.add(interface)?;
        self.made = index;
        Ok(())
    }
}
