//! Hints that leave the list of a radio as it was.

ghost use Rattle.std.specs.Prelude.{◌≡◌, ◌↔◌, IsTrue};

use reg_hints::{Hints, MOST_CODES};
use rule_tables::Alpha2;

/// Whether both are the same code, or neither is one.
fn is_same_code(one: Option<Alpha2>, other: Option<Alpha2>) -> bool
    ensures { IsTrue result ↔ (one ≡ other) }
{
    match (one, other) {
        (Some(one), Some(other)) => one.is_same(&other),
        (None, None) => true,
        (Some(_), None) | (None, Some(_)) => false,
    }
}

/// Whether both have led to the same global list.
fn is_same_global(one: &Hints, other: &Hints) -> bool
    ensures { IsTrue result ↔ (one.now.global ≡ other.now.global) }
{
    // That neither has more codes is told by reading it.
    let _first = one.global(0);
    let _other = other.global(0);
    for k in 0..MOST_CODES {
        if !is_same_code(one.global(k), other.global(k)) {
            return false;
        }
    }
    true
}

/// Whether the list of a radio is after the hints what it was before them, where these were the codes of
/// its driver's last hint.
pub(crate) fn leaves_list(
    before: &Hints,
    after: &Hints,
    was: Option<Alpha2>,
    is: Option<Alpha2>,
) -> bool
    ensures { IsTrue result ↔ ((before.now.global ≡ after.now.global) × (was ≡ is)) }
{
    is_same_global(before, after) && is_same_code(was, is)
}
