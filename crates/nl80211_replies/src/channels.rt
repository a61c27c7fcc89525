//! Channels as messages.

ghost use Rattle.std.specs.Prelude.{◌≡◌, ◌/◌, ◌++◌, ◌∷◌, [], IfOk, OnOk, map};
ghost use Rattle.nl80211_cmds.specs.Commands.{family_number};
ghost use Rattle.nl80211_cmds.specs.declared.family.Family.TheVariants.{Simulation};
ghost use Rattle.nl80211_replies.specs.Dumps.{channel_attrs, dfs_attrs, dump_message, fit_attrs, moment_attr};
ghost use Rattle.nl80211_replies.specs.declared.attribute.TheConstants.{CHANNEL};

use crate::answer::push_wide;
use crate::attribute::{CHANNEL, DFS, FLAGS, LIMIT, WIDTH_KHZ};
use crate::dump::push_shown;
use chan_flags::{Chan, Fit};
use dfs_states::Dfs;
use nl_attrs::{AttrList, Msg, MsgList, Payload};
use nl80211_cmds::attribute::{FREQ, MOMENT, RADIO};
use nl80211_cmds::{Family, flag_bits, push_number, push_plain};
use reg_hints::RadioNo;
use reg_lists::OutOfMemory;
use std::alloc::Global;

/// Appends what the rules allow on a channel, where it fits them.
fn push_fit(out: &mut AttrList, fit: Option<Fit>) -> Result<(), OutOfMemory>
    ensures { OnOk result (out.new ≡ out.old ++ fit_attrs fit) }
{
    match fit {
        None => Ok(()),
        Some(fit) => {
            push_number(out, FLAGS, flag_bits(fit.flags))?;
            push_number(out, LIMIT, u32::from(fit.limit_mbm))?;
            push_number(out, WIDTH_KHZ, fit.width_khz)?;
            push_wide(out, u64::from(fit.check_ms))
        }
    }
}

/// Appends a moment, in ms.
fn push_moment(out: &mut AttrList, ms: u64) -> Result<(), OutOfMemory>
    ensures { OnOk result (out.new ≡ out.old ++ moment_attr ms ∷ []) }
{
    push_plain(out, MOMENT, Payload::U64(ms))
}

/// Appends what is known of radar on a channel (`enum nl80211_dfs_state`).
fn push_dfs(out: &mut AttrList, dfs: Dfs) -> Result<(), OutOfMemory>
    ensures { OnOk result (out.new ≡ out.old ++ dfs_attrs dfs) }
{
    match dfs {
        Dfs::Usable => push_plain(out, DFS, Payload::U8(0)),
        Dfs::Unavailable { until } => {
            push_plain(out, DFS, Payload::U8(1))?;
            push_moment(out, until)
        }
        Dfs::Available { since } => {
            push_plain(out, DFS, Payload::U8(2))?;
            push_moment(out, since)
        }
    }
}

/// The attributes of a channel of the radio.
fn channel_attrs(
    alloc: Global,
    radio: RadioNo,
    shown: &(Chan, Dfs),
) -> Result<AttrList, OutOfMemory>
    ensures { IfOk result (λ attrs. attrs ≡ channel_attrs radio shown.now) }
{
    let mut out = AttrList::new(alloc);
    push_number(&mut out, RADIO, radio.get())?;
    push_number(&mut out, FREQ, shown.0.khz / 1_000)?;
    push_fit(&mut out, shown.0.fit)?;
    push_dfs(&mut out, shown.1)?;
    Ok(out)
}

/// Appends a message for each channel of the radio. After `OutOfMemory` a part of them may be there.
pub fn push_channels(
    alloc: Global,
    msgs: &mut MsgList,
    request: &Msg,
    radio: RadioNo,
    list: &[(Chan, Dfs)],
) -> Result<(), OutOfMemory>
    ensures { OnOk result (msgs.new ≡ msgs.old
        ++ map (dump_message request.now (family_number Simulation) CHANNEL) (map (channel_attrs radio) list.now)) }
{
    for shown in list {
        let attrs = channel_attrs(alloc, radio, shown)?;
        push_shown(msgs, request, Family::Simulation, CHANNEL, attrs)?;
    }
    Ok(())
}
