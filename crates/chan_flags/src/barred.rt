//! What bars a subchannel, by the records of a radio's channels.

ghost use Rattle.std.specs.Prelude.{◌≡◌, ◌↔◌, IsTrue, MatchOption, Some};
ghost use Rattle.std.specs.Option.{option_copied};
ghost use Rattle.chan_def.specs.Covered.{IsValidDef};
ghost use Rattle.chan_flags.specs.inner.Listing.{AreAscending};
ghost use Rattle.chan_flags.specs.ByRecords.{chan_with_centre, BarsBy, BarsChannel};
ghost use Rattle.chan_flags.specs.Verdicts.{BarsFirst, BarsNone};

use crate::asked::{Asked, Obstacle};
use crate::record::{Chan, Fit};
use chan_def::{MOST_SUBCHANNELS, subchannels};

/// The radio's channel with this centre, in kHz.
pub fn channel_at(chans: &[Chan], khz: u32) -> Option<&Chan>
    requires { AreAscending chans.now }
    ensures { option_copied result ≡ chan_with_centre chans.now khz }
{
    match chans.binary_search_by_key(&khz, |chan| chan.khz) {
        Ok(place) => Some(&chans[place]),
        Err(_place) => None,
    }
}

/// Whether the obstacle bars a channel with this record.
fn fit_bars(asked: &Asked, obstacle: Obstacle, khz: u32, fit: Fit) -> bool
    ensures { IsTrue result ↔ BarsChannel asked.now obstacle (Some (record { khz = khz; fit = Some fit })) }
{
    match obstacle {
        Obstacle::Missing | Obstacle::Unruled => false,
        Obstacle::Narrow => fit.width_khz < asked.chan.width.khz(),
        Obstacle::OfdmBarred => asked.chan.width.khz() > 20_000 && fit.flags.no_ofdm,
        Obstacle::IrBarred => asked.kind.initiates() && fit.flags.no_ir,
        Obstacle::OutdoorBarred => {
            asked.kind.initiates() && !asked.indoor && fit.flags.no_outdoor
        }
    }
}

/// Whether the obstacle bars a channel that may be missing.
fn bars(asked: &Asked, obstacle: Obstacle, chan: Option<&Chan>) -> bool
    ensures { IsTrue result ↔ BarsChannel asked.now obstacle (option_copied chan.entry) }
{
    match chan {
        None => matches!(obstacle, Obstacle::Missing),
        Some(chan) => match chan.fit {
            None => matches!(obstacle, Obstacle::Unruled),
            Some(fit) => fit_bars(asked, obstacle, chan.khz, fit),
        },
    }
}

/// The lowest subchannel, by its centre in kHz, that the obstacle bars.
pub fn lowest_barred(chans: &[Chan], asked: &Asked, obstacle: Obstacle) -> Option<u32>
    requires valid { IsValidDef asked.now.chan }
    requires ascending { AreAscending chans.now }
    ensures { MatchOption result (BarsNone (BarsBy chans.now asked.now obstacle) asked.now.chan)
        (BarsFirst (BarsBy chans.now asked.now obstacle) asked.now.chan) }
{
    for i in 0..MOST_SUBCHANNELS {
        let khz = subchannels(&asked.chan, i)?;
        if bars(asked, obstacle, channel_at(chans, khz)) {
            return Some(khz);
        }
    }
    None
}
