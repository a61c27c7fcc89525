//! Radios by what messages say of them.

ghost use Rattle.std.specs.Prelude.{◌≡◌, ◌++◌, ℕ, List, All, IfOk, Some, map};
ghost use Rattle.nl_attrs.specs.declared.attr.Attr.{Attr};
ghost use Rattle.chan_flags.specs.Profiles.{Abilities, IsProfile};
ghost use Rattle.reg_journal.specs.declared.report.RadioReport.{RadioReport};
ghost use Rattle.nl80211_cmds.specs.Fields.{profile_attrs};
ghost use Rattle.nl80211_replies.specs.Dumps.{radio_attrs};
ghost use Rattle.reply_reading.specs.Typed.{IsTypedIface, IsTypedRadio};
ghost use Rattle.reply_reading.specs.inner.Reading.{Undoes, iface_list, iface_payload, payload_in};

use crate::narrow::{narrow8, narrow16, narrow32};
use crate::payloads::{attrs_from, held_in, name_at, number_at, payload_at, radio_of, wide_at};
use crate::values::{bands_numbered, kind_numbered};
use chan_def::Kind;
use chan_flags::Profile;
use nl_attrs::Attr;
use radio_drv::{IfIndex, Name};
use reg_journal::{IfaceList, RadioReport};
use reg_lists::OutOfMemory;
use std::alloc::Global;

/// The profile that the first six attributes tell.
fn profile_in(held: &[Attr]) -> Option<Profile>
    ensures { (p : Abilities) (more : List Attr) → IsProfile p → held.now ≡ profile_attrs p ++ more → result ≡ Some p }
{
    let flags = number_at(held, 5);
    Profile::new(
        bands_numbered(number_at(held, 0)),
        narrow16(u64::from(number_at(held, 1))),
        narrow16(u64::from(number_at(held, 2))),
        narrow16(u64::from(number_at(held, 3))),
        narrow8(u64::from(number_at(held, 4))),
        flags % 2 == 1,
        flags / 2 % 2 == 1,
    )
}

/// The interface that the attributes tell.
fn iface_in(held: &[Attr]) -> (Name, IfIndex, Kind)
    ensures { Undoes IsTypedIface iface_list held.now result }
{
    (
        name_at(held, 0),
        IfIndex(narrow32(wide_at(held, 1))),
        kind_numbered(number_at(held, 2)),
    )
}

/// The interfaces that the attributes hold.
fn ifaces_in(alloc: Global, attrs: &[Attr]) -> Result<IfaceList, OutOfMemory>
    ensures { IfOk result (Undoes (All IsTypedIface) (map iface_payload) (map payload_in attrs.now)) }
{
    let mut ifaces = IfaceList::new(alloc);
    for attr in attrs {
        let held = held_in(alloc, attr.payload.as_slice())?;
        ifaces.push(iface_in(held.as_slice()))?;
    }
    Ok(ifaces)
}

/// The radio that the attributes tell. `None` where they tell no profile.
pub fn radio_in(alloc: Global, attrs: &[Attr]) -> Result<Option<RadioReport>, OutOfMemory>
    ensures { IfOk result (λ found. (report : RadioReport) → IsTypedRadio report → attrs.now ≡ radio_attrs report → found ≡ Some report) }
{
    let held = held_in(alloc, payload_at(attrs, 2))?;
    let ifaces = ifaces_in(alloc, attrs_from(held.as_slice(), 6))?;
    match profile_in(held.as_slice()) {
        Some(profile) => Ok(Some(RadioReport {
            radio: radio_of(u64::from(number_at(attrs, 0))),
            profile,
            ifaces,
        })),
        None => Ok(None),
    }
}
