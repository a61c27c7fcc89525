//! A few channels, each once, without memory.

ghost use Rattle.std.specs.Prelude.{◌≡◌, [], ◌∷◌, ◌<◌, ◌≤◌, false, IsTrue, length};
ghost use Rattle.std.specs.List.{list_any};
ghost use Rattle.chan_def.specs.Same.{is_same_channel};
ghost use Rattle.core_parts.specs.Contexts.{added};

use chan_def::ChanDef;
use reg_lists::Few;

/// As many channels as a radio may be on at once, in the order in which they came.
pub type ChanSet = Few<ChanDef, 8>;

/// This channel alone.
pub(crate) fn only(chan: ChanDef) -> ChanSet
    ensures { result ≡ chan ∷ [] }
{
    let mut chans = ChanSet::new(chan);
    let _room = chans.push(chan);
    chans
}

/// Adds the channel where it isn't among them. False where they would then be more than `most`: they
/// stay as they are.
pub(crate) fn add(chans: &mut ChanSet, chan: ChanDef, most: usize) -> bool
    requires most { most ≤ 8 }
    requires few { length chans.old ≤ most }
    ensures added { IsTrue result → chans.new ≡ added chans.old chan }
    ensures few { length chans.new ≤ most }
    ensures full { result ≡ false → most < length (added chans.old chan) }
    ensures stays { result ≡ false → chans.new ≡ chans.old }
{
    if is_among(chans.as_slice(), &chan) {
        return true;
    }
    if chans.len() == most {
        return false;
    }
    chans.push(chan)
}

/// Whether the channel is one of these.
fn is_among(chans: &[ChanDef], chan: &ChanDef) -> bool
    ensures { result ≡ list_any (is_same_channel chan.now) chans.now }
{
    chans.iter().any(|other| is_same(chan, other))
}

/// Whether both are the same definition.
fn is_same(one: &ChanDef, other: &ChanDef) -> bool
    ensures { result ≡ is_same_channel one.now other.now }
{
    one.is_same(other)
}
