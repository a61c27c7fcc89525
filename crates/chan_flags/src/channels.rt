//! All channels of a radio.

ghost use Rattle.std.specs.Prelude.{◌≡◌, ◌↔◌, None, All, IfOk, IsTrue, map};
ghost use Rattle.chan_flags.specs.Lists.{AreChannels, IsRadioChannel};

use crate::profile::Bands;
use crate::record::Chan;
use freq_range::{all_channels, khz_channel};
use reg_lists::OutOfMemory;
use std::alloc::Global;

/// Whether the channel with this centre, in kHz, is one of the bands'.
fn is_of_bands(bands: Bands, khz: u32) -> bool
    ensures { IsTrue result ↔ IsRadioChannel bands khz }
{
    match khz_channel(khz) {
        Some((band, _)) => bands.has(band),
        None => false,
    }
}

/// All channels of the bands, ascending, without records.
pub fn channels_of(alloc: Global, bands: Bands) -> Result<Vec<Chan>, OutOfMemory>
    ensures channels { IfOk result (λ v. AreChannels bands (map (λ c. c.khz) v.items)) }
    ensures unfit { IfOk result (λ v. All (λ c. c.fit ≡ None) v.items) }
{
    let all = all_channels(alloc)?;
    let mut chans = Vec::with_capacity(alloc, all.len())?;
    for khz in all.as_slice() {
        if is_of_bands(bands, *khz) {
            chans.push(Chan {
                khz: *khz,
                fit: None,
            })?;
        }
    }
    Ok(chans)
}
