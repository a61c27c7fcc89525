//! Stretches of frequencies, outside of which an operation that begins or ends changes nothing.

ghost use Rattle.std.specs.Prelude.{◌<◌, ◌↔◌, ℕ, IsTrue, length};
ghost use Rattle.chan_def.specs.Covered.{IsCovered};
ghost use Rattle.dfs_states.specs.inner.Steps.{IsReach, IsWithin, OperatesOn};

use chan_def::ChanDef;

/// From the lowest frequency to the highest, in kHz. It holds none where the lowest is above the highest.
#[derive(Clone, Copy, Debug)]
pub(crate) struct Span {
    pub low: u64,
    pub high: u64,
}

impl Span {
    /// Whether the frequency, in kHz, is one of its.
    pub(crate) fn holds(&self, khz: u32) -> bool
        ensures { IsTrue result ↔ IsWithin self.now khz }
    {
        let khz = u64::from(khz);
        self.low <= khz && khz <= self.high
    }
}

/// Holds the centres of the channel's subchannels.
fn span_of(chan: &ChanDef) -> Span
    ensures { (khz : ℕ) → IsCovered chan.now khz → IsWithin result khz }
{
    let half = u64::from(chan.width.khz() / 2);
    let centre = u64::from(chan.centre_khz);
    Span {
        low: (centre + 10_000).saturating_sub(half),
        high: (centre + half).saturating_sub(10_000),
    }
}

/// Holds the centres of the subchannels of the operation, if there is one.
fn span_of_operation(operation: &Option<ChanDef>) -> Span
    ensures { (khz : ℕ) → OperatesOn khz operation.now → IsWithin result khz }
{
    match operation {
        Some(chan) => span_of(chan),
        None => Span {
            low: u64::MAX,
            high: 0,
        },
    }
}

/// Holds the centres of the subchannels of either operation.
fn span_of_both(one: &Option<ChanDef>, other: &Option<ChanDef>) -> Span
    ensures one { (khz : ℕ) → OperatesOn khz one.now → IsWithin result khz }
    ensures other { (khz : ℕ) → OperatesOn khz other.now → IsWithin result khz }
{
    let one = span_of_operation(one);
    let other = span_of_operation(other);
    Span {
        low: one.low.min(other.low),
        high: one.high.max(other.high),
    }
}

/// Holds the centres of the subchannels of the slot's operation, and of those of the next one.
pub(crate) fn reach_of(operations: &[Option<ChanDef>], slot: usize, next: &Option<ChanDef>) -> Span
    requires { slot < length operations.now }
    ensures { IsReach operations.now slot next.now result }
{
    span_of_both(&operations[slot], next)
}
