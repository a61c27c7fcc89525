//! The channels of a radio.

ghost use Rattle.std.specs.Prelude.{◌≡◌, ℕ, Contains, IfOk, List, MatchResult};
ghost use Rattle.std.specs.Option.{option_map};
ghost use Rattle.rule_tables.specs.declared.domain.Domain.{Domain};
ghost use Rattle.reg_journal.specs.Causes.{IsFree};
ghost use Rattle.reg_journal.specs.Due.{EachMayFollow};
ghost use Rattle.reg_journal.specs.Dumps.{AreShownChannels, IsShownChannel, fit_shown};
ghost use Rattle.reg_journal.specs.Facts.{Journal};
ghost use Rattle.reg_journal.specs.Refusals.{LacksRadio};
ghost use Rattle.reg_core.specs.inner.Deciding.{IsReason};
ghost use Rattle.reg_core.specs.Kept.{Keeps};
ghost use Rattle.core_parts.specs.Kept.{KeepsRadio};

use crate::core_state::Core;
use crate::declined::Declined;
use chan_flags::{Chan, Fit};
use core_parts::{Radio, radio_at};
use dfs_states::Dfs;
use reg_hints::RadioNo;
use reg_journal::{ChanList, Refusal};
use reg_lists::OutOfMemory;
use std::alloc::Global;

/// What the rules allow, with the radio's power in mBm where that is less.
fn limited(fit: Option<Fit>, power_mbm: u16) -> Option<Fit>
    ensures { result ≡ option_map (fit_shown power_mbm) fit }
{
    match fit {
        Some(fit) => Some(Fit {
            limit_mbm: fit.limit_mbm.min(power_mbm),
            ..fit
        }),
        None => None,
    }
}

/// The radio's channel as it is shown, and its state.
fn shown_channel(radio: &Radio, chan: Chan) -> (Chan, Dfs)
    ensures { (db : List Domain) (J : Journal) (r : ℕ) → EachMayFollow db J → KeepsRadio db J r radio.now → Contains radio.now.chans.chans chan
        → IsShownChannel db J r chan.khz result }
{
    let fit = limited(chan.fit, radio.chans.profile().power_mbm());
    let state = radio.book.state(chan.khz);
    (Chan { khz: chan.khz, fit }, state)
}

/// The radio's channels in ascending order, each as it is shown.
fn shown_channels(alloc: Global, radio: &Radio) -> Result<ChanList, OutOfMemory>
    ensures { IfOk result (λ list. (db : List Domain) (J : Journal) (r : ℕ) → EachMayFollow db J → KeepsRadio db J r radio.now
        → AreShownChannels db J r list) }
{
    let _channels = radio.chans.len();
    let mut list = ChanList::new(alloc);
    let mut i = 0;
    'channels: while let Some(chan) = radio.chans.chan(i) {
        list.push(shown_channel(radio, chan))?;
        i += 1;
    }
    Ok(list)
}

impl Core {
    /// The radio's channels.
    pub(crate) fn channels(&self, radio: RadioNo) -> Result<ChanList, Declined>
        ensures shown { (db : List Domain) (J : Journal) → Keeps db self.now J
            → MatchResult result (λ list. IsFree (LacksRadio J radio) × AreShownChannels db J radio list) (IsReason (LacksRadio J radio)) }
    {
        let Some(found) = radio_at(&self.radios, radio) else {
            return Err(Declined::Refused(Refusal::NoRadio(radio)));
        };
        match shown_channels(self.interfaces.allocator(), found) {
            Ok(list) => Ok(list),
            Err(OutOfMemory) => Err(Declined::OutOfMemory),
        }
    }
}
