//! A reader and a writer, each on a thread of its own.

use crate::score::{Score, looked, raised};
use rule_publish::{Looker, SwapBoard, Teller};
use std::alloc::Global;
use std::sync::Wait;
use std::sync::atomic::{AtomicU64, Ordering};
use std::test::Fail;
use std::thread;

/// How often a thread looks whether the other one has come as far as it waits for.
const TURNS: u64 = 10_000_000;

/// Waits until the count is so far, and tells whether it ever was.
fn came(count: &AtomicU64, wanted: u64) -> bool {
    for _turn in 0..TURNS {
        if count.load(Ordering::SeqCst) >= wanted {
            return true;
        }
        thread::yield_now();
    }
    false
}

/// Looks once after each publish, and tells what it saw then; the writer waits for each look.
fn look_after_each(
    looker: Looker<Score>,
    published: &AtomicU64,
    seen: &AtomicU64,
) -> Option<(u64, u64)> {
    let (looker, first) = looked(looker);
    seen.store(1, Ordering::SeqCst);
    if !came(published, 1) {
        return None;
    }
    let (_looker, second) = looked(looker);
    seen.store(2, Ordering::SeqCst);
    Some((first, second))
}

/// Publishes once between the looks, and once more after them.
fn publish_between<R: Wait + Drop>(
    teller: Teller<Score, R>,
    alloc: Global,
    published: &AtomicU64,
    seen: &AtomicU64,
) -> bool {
    let first = came(seen, 1);
    let Ok(teller) = raised(teller, alloc) else {
        return false;
    };
    published.store(1, Ordering::SeqCst);
    let second = came(seen, 2);
    first && second && raised(teller, alloc).is_ok()
}

#[test]
fn a_reader_looks_beside_the_writer(rt: HostRuntime) -> Result<(), Fail> {
    let alloc = rt.alloc();
    let (teller, mut lookers) = SwapBoard::open(&rt, alloc, Score { number: 0 }, 1)?;
    let looker = lookers.take().expect(&rt, "a reader");
    let (published, seen) = (AtomicU64::new(0), AtomicU64::new(0));
    let (numbers, waited) = thread::join(
        &rt,
        || look_after_each(looker, &published, &seen),
        || publish_between(teller, alloc, &published, &seen),
    );
    assert!(rt; waited);
    assert!(rt; numbers == Some((0, 1)));
    Ok(())
}

/// Looks so often, and tells whether a number was less than the one before.
fn never_back(looker: Looker<Score>, looks: u64) -> bool {
    let mut looker = looker;
    for _look in 0..looks {
        let before = looker.seen();
        let (after, number) = looked(looker);
        if number < before || after.seen() != number {
            return false;
        }
        looker = after;
    }
    true
}

/// Publishes so often.
fn publish_all<R: Wait + Drop>(teller: Teller<Score, R>, alloc: Global, publishes: u64) -> bool {
    let mut teller = teller;
    for _publish in 0..publishes {
        match raised(teller, alloc) {
            Ok(later) => teller = later,
            Err(_) => return false,
        }
    }
    true
}

#[test]
fn looks_beside_a_writer_never_go_back(rt: HostRuntime) -> Result<(), Fail> {
    let alloc = rt.alloc();
    let (teller, mut lookers) = SwapBoard::open(&rt, alloc, Score { number: 0 }, 1)?;
    let looker = lookers.take().expect(&rt, "a reader");
    let (good, done) = thread::join(
        &rt,
        || never_back(looker, 100_000),
        || publish_all(teller, alloc, 100_000),
    );
    assert!(rt; good);
    assert!(rt; done);
    Ok(())
}
