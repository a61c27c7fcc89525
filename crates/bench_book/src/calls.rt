//! The calls.

use crate::count::Count;
use crate::draws::Draws;
use crate::keeper::Keeper;
use dfs_states::LAST_MOMENT_MS;

/// How many calls are made.
const CALLS: u64 = 1_000_000;

/// How long a check takes, in ms.
const CHECK_MS: u32 = 60_000;

/// One more call, at this moment, in ms; what moment it is then. Of 1,024 calls some 2 are radar, 2
/// changes of the region, 60 drops, 260 begins, 300 moments and 400 questions.
fn make_call<K: Keeper>(keeper: &mut K, draws: &mut Draws, now: u64, count: &mut Count) -> u64 {
    match draws.below(1024) {
        0..2 => keeper.radar(&draws.chan()),
        2..4 => keeper.region_changed(),
        4..64 => keeper.drop_check(draws.below(8) as u8),
        64..324 => {
            let begun = keeper.begin(draws.below(8) as u8, &draws.chan(), CHECK_MS);
            count.begun = count.begun.wrapping_add(u64::from(begun));
        }
        324..624 => {
            let now = now.saturating_add(draws.below(4_000)).min(LAST_MOMENT_MS);
            keeper.advance(now);
            return now;
        }
        _ => count.answer(keeper.state(draws.khz())),
    }
    now
}

/// Makes all the calls.
pub(crate) fn make_calls<K: Keeper>(keeper: &mut K, draws: &mut Draws) -> Count {
    let mut count = Count::NONE;
    let mut now = 0;
    for _call in 0..CALLS {
        now = make_call(keeper, draws, now, &mut count);
        count.calls = count.calls.wrapping_add(1);
    }
    count
}
