//! Channels by what messages say of them.

ghost use Rattle.std.specs.Prelude.{◌≡◌, ◌++◌, ℕ, List, All, IfOk, Some, map};
ghost use Rattle.nl_attrs.specs.Messages.{attrs_in};
ghost use Rattle.nl_attrs.specs.declared.attr.Attr.{Attr};
ghost use Rattle.chan_flags.specs.declared.record.Fit.{Fit};
ghost use Rattle.nl80211_replies.specs.Dumps.{channel_attrs, dfs_attrs, fit_attrs};
ghost use Rattle.reply_reading.specs.Typed.{IsTypedDfs, IsTypedFit};
ghost use Rattle.reply_reading.specs.inner.Reading.{IsToldChannel, Undoes};
ghost use Rattle.reply_reading.specs.inner.Values.{dfs_numbered};

use crate::narrow::{khz_of, narrow16, narrow32};
use crate::payloads::{attrs_from, attrs_in, byte_at, number_at, wide_at};
use crate::values::flags_numbered;
use chan_flags::{Chan, Fit};
use dfs_states::Dfs;
use nl_attrs::{Attr, Msg};
use reg_journal::ChanList;
use reg_lists::OutOfMemory;
use std::alloc::Global;

/// What is known of radar, by its number and the moment that goes with it, in ms.
fn dfs_numbered(number: u8, ms: u64) -> Dfs
    ensures { result ≡ dfs_numbered number ms }
{
    match number {
        0 => Dfs::Usable,
        1 => Dfs::Unavailable { until: ms },
        _ => Dfs::Available { since: ms },
    }
}

/// What is known of radar, as the attributes tell it.
fn dfs_in(attrs: &[Attr]) -> Dfs
    ensures { Undoes IsTypedDfs dfs_attrs attrs.now result }
{
    dfs_numbered(byte_at(attrs, 0), wide_at(attrs, 1))
}

/// What the rules allow, by the first four attributes.
fn fit_in(attrs: &[Attr]) -> Fit
    ensures { (fit : Fit) (more : List Attr) → IsTypedFit fit → attrs.now ≡ fit_attrs (Some fit) ++ more → result ≡ fit }
{
    Fit {
        flags: flags_numbered(number_at(attrs, 0)),
        limit_mbm: narrow16(u64::from(number_at(attrs, 1))),
        check_ms: narrow32(wide_at(attrs, 3)),
        width_khz: number_at(attrs, 2),
    }
}

/// The channel that the attributes tell. Behind the first two, one that doesn't fit the rules has at most two.
fn channel_in(attrs: &[Attr]) -> (Chan, Dfs)
    ensures { (r : ℕ) → Undoes IsToldChannel (channel_attrs r) attrs.now result }
{
    let khz = khz_of(u64::from(number_at(attrs, 1)));
    let more = attrs_from(attrs, 2);
    if more.len() <= 2 {
        return (Chan { khz, fit: None }, dfs_in(more));
    }
    let fit = Some(fit_in(more));
    (Chan { khz, fit }, dfs_in(attrs_from(more, 4)))
}

/// The channels that messages tell, one each.
pub fn channels_in(alloc: Global, msgs: &[Msg]) -> Result<ChanList, OutOfMemory>
    ensures { IfOk result (λ list. (r : ℕ) → Undoes (All IsToldChannel) (map (channel_attrs r)) (map attrs_in msgs.now) list) }
{
    let mut list = ChanList::new(alloc);
    for msg in msgs {
        list.push(channel_in(attrs_in(msg)))?;
    }
    Ok(list)
}
