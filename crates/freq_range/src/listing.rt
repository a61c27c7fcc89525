//! All channels of the channel table.

ghost use Rattle.std.specs.Prelude.{IfOk, OnOk};
ghost use Rattle.freq_range.specs.Ascending.{AreAllAscending};
ghost use Rattle.freq_range.specs.Channels.{IsCentre};
ghost use Rattle.freq_range.specs.inner.Places.{IsChannelBefore, place};

use crate::channel::{Band, channel_khz};
use reg_lists::{OutOfMemory, Seq};
use std::alloc::Global;

/// The channel numbers are below this.
const NUMBERS: u8 = 234;

/// Appends the centres of the band's channels, ascending.
fn push_band(centres: &mut Seq<u32>, band: Band) -> Result<(), OutOfMemory>
    ensures channels { AreAllAscending (IsChannelBefore (place band 0)) centres.old
        → OnOk result (AreAllAscending (IsChannelBefore (place band 234)) centres.new) }
{
    for n in 0..NUMBERS {
        if let Some(khz) = channel_khz(band, n) {
            centres.push(khz)?;
        }
    }
    Ok(())
}

/// The centres, in kHz, of all channels of the channel table, ascending: 14 in 2.4 GHz, 28 in 5 GHz
/// and 59 in 6 GHz.
pub fn all_channels(alloc: Global) -> Result<Seq<u32>, OutOfMemory>
    ensures channels { IfOk result (λ centres. AreAllAscending IsCentre centres) }
{
    let mut centres = Seq::new(alloc);
    push_band(&mut centres, Band::Ghz2)?;
    push_band(&mut centres, Band::Ghz5)?;
    push_band(&mut centres, Band::Ghz6)?;
    Ok(centres)
}
