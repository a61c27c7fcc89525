//! Checks that run.

ghost use Rattle.std.specs.Prelude.{◌≡◌, ℕ, ◌↔◌, Some, IsTrue, Any};
ghost use Rattle.dfs_states.specs.inner.Steps.{EachFollows, CheckFollows, IsDone, IsEnded};

use chan_def::ChanDef;

/// A check that runs (CAC, channel availability check): radar is looked for on a channel before it is
/// used.
#[derive(Clone, Copy, Debug)]
pub(crate) struct Check {
    pub chan: ChanDef,
    /// When it began, in ms.
    pub start: u64,
    /// When it is done, in ms.
    pub end: u64,
}

/// The check, unless it is done.
fn unless_done(now: u64, check: Option<Check>) -> Option<Check>
    ensures { CheckFollows now check result }
{
    match check {
        Some(running) if now < running.end => check,
        _ => None,
    }
}

/// Whether the check is done.
fn is_done(now: u64, check: &Option<Check>) -> bool
    ensures { IsTrue result ↔ IsDone now check.now }
{
    match check {
        Some(running) => running.end <= now,
        None => false,
    }
}

/// Whether some check is done.
pub(crate) fn some_is_done(now: u64, checks: &[Option<Check>]) -> bool
    ensures { IsTrue result ↔ Any (IsDone now) checks.now }
{
    checks.iter().any(|check| is_done(now, check))
}

/// Takes the checks that are done out of their slots.
pub(crate) fn clear_done(now: u64, checks: &mut [Option<Check>])
    ensures { EachFollows (CheckFollows now) checks.old checks.new }
{
    for check in checks.iter_mut() {
        *check = unless_done(now, *check);
    }
}

/// When the slot's check ended, if it counts and is done.
pub(crate) fn end_of(now: u64, counts: bool, check: &Option<Check>) -> Option<u64>
    ensures { (end : ℕ) → (result ≡ Some end) ↔ IsEnded now counts check.now end }
{
    match check {
        Some(check) if counts && check.end <= now => Some(check.end),
        _ => None,
    }
}
