//! Prints the channels of a radio.

ghost use Rattle.std.specs.Prelude.{◌≡◌, ◌++◌, IfOk, OnOk};
ghost use Rattle.reg_base.specs.Texts.{line_of};
ghost use Rattle.iw_dumps.specs.DumpTexts.{allowed_text, barring_text, channel_number, channels_text, fit_text, shown_channel_text, state_text, text_if};

use crate::pieces::{put_if, put_labelled, put_mhz, put_number, put_u32};
use chan_flags::{Chan, Fit};
use dfs_states::Dfs;
use freq_range::RuleFlags;
use reg_base::Bytes;
use reg_lists::OutOfMemory;
use std::alloc::Global;

/// The number of the channel with this centre, in kHz.
#[tactic(auto, unfolding(crate::specs::DumpTexts::channel_number))]
fn channel_number(khz: u32) -> u32
    ensures { result ≡ channel_number khz }
{
    if khz == 2_484_000 {
        14
    } else if khz < 5_000_000 {
        khz.saturating_sub(2_407_000) / 5_000
    } else if khz < 5_950_000 {
        (khz - 5_000_000) / 5_000
    } else {
        (khz - 5_950_000) / 5_000
    }
}

/// Appends the state of a channel that has to be checked for radar, with moments in ms.
fn put_state(out: &mut Bytes, state: Dfs) -> Result<(), OutOfMemory>
    ensures { OnOk result (out.new ≡ out.old ++ state_text state) }
{
    match state {
        Dfs::Usable => out.append(b", DFS usable"),
        Dfs::Unavailable { until } => put_labelled(out, b", DFS unavailable until ", until),
        Dfs::Available { since } => put_labelled(out, b", DFS available since ", since),
    }
}

/// Appends the state where the channel has to be checked.
fn put_state_if(out: &mut Bytes, dfs: bool, state: Dfs) -> Result<(), OutOfMemory>
    ensures { OnOk result (out.new ≡ out.old ++ text_if dfs (state_text state)) }
{
    if dfs {
        put_state(out, state)?;
    }
    Ok(())
}

/// Appends the flags that bar what is sent.
#[tactic(auto, unfolding(crate::specs::DumpTexts::barring_text))]
fn put_barring(out: &mut Bytes, flags: &RuleFlags) -> Result<(), OutOfMemory>
    ensures { OnOk result (out.new ≡ out.old ++ barring_text flags.now) }
{
    put_if(out, flags.no_ofdm, b", NO-OFDM")?;
    put_if(out, flags.no_outdoor, b", NO-OUTDOOR")?;
    put_if(out, flags.no_ir, b", NO-IR")?;
    Ok(())
}

/// Appends what the rules allow on a channel.
#[tactic(auto, unfolding(crate::specs::DumpTexts::allowed_text))]
fn put_allowed(out: &mut Bytes, fit: Fit, state: Dfs) -> Result<(), OutOfMemory>
    ensures { OnOk result (out.new ≡ out.old ++ allowed_text fit state) }
{
    put_number(out, u64::from(fit.limit_mbm))?;
    out.append(b" mBm ")?;
    put_mhz(out, fit.width_khz)?;
    out.append(b" MHz")?;
    put_barring(out, &fit.flags)?;
    put_state_if(out, fit.flags.dfs, state)?;
    Ok(())
}

/// Appends what is allowed on a channel, if it is.
fn put_fit(out: &mut Bytes, fit: Option<Fit>, state: Dfs) -> Result<(), OutOfMemory>
    ensures { OnOk result (out.new ≡ out.old ++ fit_text fit state) }
{
    match fit {
        Some(fit) => put_allowed(out, fit, state),
        None => out.append(b"disabled"),
    }
}

/// Appends a channel: its centre in MHz, its number, and what is allowed there.
#[tactic(auto, unfolding(crate::specs::DumpTexts::shown_channel_text))]
fn put_channel(out: &mut Bytes, shown: &(Chan, Dfs)) -> Result<(), OutOfMemory>
    ensures { OnOk result (out.new ≡ out.old ++ shown_channel_text shown.now) }
{
    let (chan, state) = *shown;
    out.append(b"\t")?;
    put_mhz(out, chan.khz)?;
    out.append(b" [")?;
    put_u32(out, channel_number(chan.khz))?;
    out.append(b"] ")?;
    put_fit(out, chan.fit, state)?;
    Ok(())
}

/// Appends the line of a channel.
fn put_channel_line(out: &mut Bytes, shown: &(Chan, Dfs)) -> Result<(), OutOfMemory>
    ensures { OnOk result (out.new ≡ out.old ++ line_of (shown_channel_text shown.now)) }
{
    put_channel(out, shown)?;
    out.push(b'\n')?;
    Ok(())
}

/// The text of a radio's channels (`iw phy channels`): for each a line with its centre in MHz, its number,
/// and what the rules allow there: the power in mBm, the width in MHz, the flags, and the state of a
/// channel that has to be checked for radar, with moments in ms. `OutOfMemory` is its one error.
pub fn channels_text(alloc: Global, list: &[(Chan, Dfs)]) -> Result<Bytes, OutOfMemory>
    ensures text { IfOk result (λ text. text ≡ channels_text list.now) }
{
    let mut out = Bytes::new(alloc);
    for shown in list {
        put_channel_line(&mut out, shown)?;
    }
    Ok(out)
}
