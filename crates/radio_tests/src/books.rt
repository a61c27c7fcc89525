//! Books after calls in turn, with the states and the running checks that are wanted.

use chan_def::{ChanDef, Width};
use dfs_states::{Dfs, DfsBook, IfSlot, LAST_MOMENT_MS};
use std::alloc::Global;
use std::process::Abort;
use std::test::Fail;

/// The channels of 20 MHz from 5170 to 5330 MHz.
const CHANNELS: [u32; 8] = [
    5_180_000, 5_200_000, 5_220_000, 5_240_000, 5_260_000, 5_280_000, 5_300_000, 5_320_000,
];

const MINUTE: u32 = 60_000;

/// A channel of 20 MHz below the others, the first of those with radar, and the one above that.
const LOWEST: ChanDef = ChanDef {
    control_khz: 5_180_000,
    width: Width::W20,
    centre_khz: 5_180_000,
};

const HOME: ChanDef = ChanDef {
    control_khz: 5_260_000,
    width: Width::W20,
    centre_khz: 5_260_000,
};

const BESIDE: ChanDef = ChanDef {
    control_khz: 5_280_000,
    width: Width::W20,
    centre_khz: 5_280_000,
};

/// All eight channels as one.
const WHOLE: ChanDef = ChanDef {
    control_khz: 5_180_000,
    width: Width::W160,
    centre_khz: 5_250_000,
};

/// The upper half of them.
const UPPER: ChanDef = ChanDef {
    control_khz: 5_260_000,
    width: Width::W80,
    centre_khz: 5_290_000,
};

/// A call, or what is wanted of the book then.
#[derive(Clone, Copy)]
enum Step<'a> {
    /// It is this moment, in ms.
    At(u64),
    /// There is radar on the channel of 20 MHz round this centre, in kHz.
    Radar(u32),
    /// A check begins in the slot, and takes so long, in ms.
    Begin(u8, ChanDef, u32),
    /// The slot's check is dropped.
    Drop(u8),
    /// The slot's interface operates on this channel from now on, or on none.
    Operate(u8, Option<ChanDef>),
    /// The region changes to one where checks last, or to one where they lapse.
    Region(bool),
    /// The channel of this centre, in kHz, is in this state.
    Is(u32, Dfs),
    /// The channels are in these states, from the lowest on.
    Are(&'a [Dfs]),
    /// This check runs in the slot until this moment, in ms.
    Runs(u8, ChanDef, u64),
    /// No check runs in the slot.
    Idles(u8),
}

/// Calls in turn, over a new book of a region where checks last or lapse.
struct Book<'a> {
    name: &'a str,
    lasts: bool,
    steps: &'a [Step<'a>],
}

const STANDS: Dfs = Dfs::Available { since: 60_000 };

const FREE: Dfs = Dfs::Usable;

const BOOKS: [Book<'_>; 14] = [
    Book {
        name: "a new book is usable",
        lasts: true,
        steps: &[
            Step::Are(&[FREE; 8]),
            Step::Is(5_745_000, FREE),
            Step::Idles(0),
        ],
    },
    Book {
        name: "radar drops a check",
        lasts: true,
        steps: &[
            Step::Begin(0, HOME, MINUTE),
            Step::At(59_999),
            Step::Radar(5_260_000),
            Step::Drop(0),
            Step::At(60_000),
            Step::Is(5_260_000, Dfs::Unavailable { until: 1_859_999 }),
            Step::At(1_859_998),
            Step::Is(5_260_000, Dfs::Unavailable { until: 1_859_999 }),
            Step::At(1_859_999),
            Step::Is(5_260_000, FREE),
        ],
    },
    Book {
        name: "radar as a check ends",
        lasts: true,
        steps: &[
            Step::Begin(0, UPPER, MINUTE),
            Step::At(60_000),
            Step::Idles(0),
            Step::Radar(5_260_000),
            Step::Is(5_260_000, Dfs::Unavailable { until: 1_860_000 }),
            Step::At(1_860_000),
            Step::Is(5_260_000, FREE),
            Step::Is(5_280_000, STANDS),
        ],
    },
    Book {
        name: "a check of 160 mhz and radar on it",
        lasts: true,
        steps: &[
            Step::Begin(0, WHOLE, MINUTE),
            Step::At(59_999),
            Step::Runs(0, WHOLE, 60_000),
            Step::Idles(1),
            Step::Are(&[FREE; 8]),
            Step::At(60_000),
            Step::Idles(0),
            Step::Are(&[STANDS; 8]),
            Step::At(70_000),
            Step::Radar(5_300_000),
            Step::Are(&[
                STANDS,
                STANDS,
                STANDS,
                STANDS,
                STANDS,
                STANDS,
                Dfs::Unavailable { until: 1_870_000 },
                STANDS,
            ]),
            Step::At(1_869_999),
            Step::Are(&[
                STANDS,
                STANDS,
                STANDS,
                STANDS,
                STANDS,
                STANDS,
                Dfs::Unavailable { until: 1_870_000 },
                STANDS,
            ]),
            Step::At(1_870_000),
            Step::Are(&[STANDS, STANDS, STANDS, STANDS, STANDS, STANDS, FREE, STANDS]),
        ],
    },
    Book {
        name: "another region and back",
        lasts: true,
        steps: &[
            Step::Begin(0, HOME, MINUTE),
            Step::At(60_000),
            Step::Radar(5_280_000),
            Step::Is(5_260_000, STANDS),
            Step::Region(true),
            Step::Region(true),
            Step::Is(5_260_000, FREE),
            Step::Is(5_280_000, Dfs::Unavailable { until: 1_860_000 }),
        ],
    },
    Book {
        name: "a check outlives its loss",
        lasts: true,
        steps: &[
            Step::Begin(0, UPPER, MINUTE),
            Step::Begin(7, LOWEST, MINUTE),
            Step::At(1_000),
            Step::Radar(5_320_000),
            Step::Runs(0, UPPER, 60_000),
            Step::At(60_000),
            Step::Are(&[
                STANDS,
                FREE,
                FREE,
                FREE,
                STANDS,
                STANDS,
                STANDS,
                Dfs::Unavailable { until: 1_801_000 },
            ]),
        ],
    },
    Book {
        name: "a region voids a running check",
        lasts: true,
        steps: &[
            Step::Begin(0, UPPER, MINUTE),
            Step::Region(true),
            Step::Runs(0, UPPER, 60_000),
            Step::At(60_000),
            Step::Are(&[FREE; 8]),
        ],
    },
    Book {
        name: "overlapping checks",
        lasts: true,
        steps: &[
            Step::Begin(0, WHOLE, 2 * MINUTE),
            Step::Begin(1, UPPER, MINUTE),
            Step::At(60_000),
            Step::Are(&[FREE, FREE, FREE, FREE, STANDS, STANDS, STANDS, STANDS]),
            // The drop of a check that has ended is no event; that of the other one leaves what stands.
            Step::Drop(1),
            Step::Are(&[FREE, FREE, FREE, FREE, STANDS, STANDS, STANDS, STANDS]),
            Step::Begin(1, LOWEST, 0),
            Step::Idles(1),
            Step::Is(5_180_000, STANDS),
            Step::At(120_000),
            Step::Are(&[Dfs::Available { since: 120_000 }; 8]),
        ],
    },
    Book {
        name: "a dropped check never counts",
        lasts: true,
        steps: &[
            Step::Begin(0, UPPER, MINUTE),
            Step::At(30_000),
            Step::Drop(0),
            Step::Begin(0, LOWEST, MINUTE),
            Step::At(60_000),
            Step::Are(&[FREE; 8]),
            Step::At(200_000),
            Step::Are(&[
                Dfs::Available { since: 90_000 },
                FREE,
                FREE,
                FREE,
                FREE,
                FREE,
                FREE,
                FREE,
            ]),
        ],
    },
    Book {
        name: "an unused check lapses",
        lasts: false,
        steps: &[
            Step::Begin(0, HOME, MINUTE),
            Step::At(61_999),
            Step::Is(5_260_000, STANDS),
            Step::At(62_000),
            Step::Is(5_260_000, FREE),
            // The lapse is for good: an operation brings nothing back.
            Step::Operate(0, Some(HOME)),
            Step::Is(5_260_000, FREE),
            Step::At(62_001),
            Step::Is(5_260_000, FREE),
        ],
    },
    Book {
        name: "a used check lapses after its use",
        lasts: false,
        steps: &[
            Step::Begin(0, HOME, MINUTE),
            Step::At(61_999),
            Step::Operate(0, Some(HOME)),
            Step::At(100_000),
            Step::Is(5_260_000, STANDS),
            Step::Operate(0, None),
            Step::At(101_999),
            Step::Is(5_260_000, STANDS),
            Step::Operate(0, Some(HOME)),
            Step::Operate(0, None),
            Step::At(103_998),
            Step::Is(5_260_000, STANDS),
            Step::At(103_999),
            Step::Is(5_260_000, FREE),
        ],
    },
    Book {
        name: "use keeps its own subchannels",
        lasts: false,
        steps: &[
            Step::Begin(0, WHOLE, MINUTE),
            Step::At(60_000),
            Step::Operate(3, Some(HOME)),
            Step::Operate(5, Some(BESIDE)),
            Step::At(62_000),
            Step::Are(&[FREE, FREE, FREE, FREE, STANDS, STANDS, FREE, FREE]),
            Step::Operate(3, Some(BESIDE)),
            Step::Operate(5, None),
            Step::At(64_000),
            Step::Are(&[FREE, FREE, FREE, FREE, FREE, STANDS, FREE, FREE]),
        ],
    },
    Book {
        name: "a check lapses within a jump",
        lasts: false,
        steps: &[
            Step::Begin(0, UPPER, MINUTE),
            Step::Begin(1, HOME, 2 * MINUTE),
            Step::At(62_000),
            Step::Are(&[FREE; 8]),
            Step::At(121_999),
            Step::Is(5_260_000, Dfs::Available { since: 120_000 }),
            Step::Is(5_280_000, FREE),
        ],
    },
    Book {
        name: "checks last in one region and lapse in another",
        lasts: true,
        steps: &[
            Step::Begin(0, HOME, MINUTE),
            Step::At(90_000),
            Step::Is(5_260_000, STANDS),
            Step::Region(false),
            Step::Is(5_260_000, FREE),
            Step::Begin(0, HOME, MINUTE),
            Step::At(151_999),
            Step::Is(5_260_000, Dfs::Available { since: 150_000 }),
            Step::At(152_000),
            Step::Is(5_260_000, FREE),
        ],
    },
];

fn slot(rt: &impl Abort, n: u8) -> IfSlot {
    IfSlot::new(n).expect(rt, "a slot")
}

/// Makes the call, or asks whether the book is as is wanted.
fn make(rt: &impl Abort, book: &mut DfsBook, name: &str, k: usize, step: &Step<'_>) {
    match step {
        Step::At(now) => {
            assert!(rt; *now <= LAST_MOMENT_MS);
            book.advance(*now);
        }
        Step::Radar(khz) => book.radar(&ChanDef {
            control_khz: *khz,
            width: Width::W20,
            centre_khz: *khz,
        }),
        Step::Begin(n, chan, length_ms) => book.begin(slot(rt, *n), chan, *length_ms),
        Step::Drop(n) => book.drop_check(slot(rt, *n)),
        Step::Operate(n, chan) => book.operate(slot(rt, *n), chan.as_ref()),
        Step::Region(lasts) => book.region_changed(*lasts),
        Step::Is(khz, state) => assert!(rt; book.state(*khz) == *state, "{name}: step {k}"),
        Step::Are(states) => {
            for (khz, state) in CHANNELS.iter().zip(states.iter()) {
                assert!(rt; book.state(*khz) == *state, "{name}: step {k}: {khz} kHz");
            }
        }
        Step::Runs(n, chan, end) => {
            assert!(rt;
                book.running(slot(rt, *n)) == Some((*chan, *end)),
                "{name}: step {k}"
            );
        }
        Step::Idles(n) => assert!(rt; book.running(slot(rt, *n)).is_none(), "{name}: step {k}"),
    }
}

/// Each book is as its steps want it.
fn are_followed(rt: &impl Abort, alloc: Global, books: &[Book<'_>]) -> Result<(), Fail> {
    for Book { name, lasts, steps } in books {
        let mut book = DfsBook::new(alloc, &CHANNELS, *lasts)?;
        for (k, step) in steps.iter().enumerate() {
            make(rt, &mut book, name, k, step);
        }
    }
    Ok(())
}

#[test]
fn books_follow_their_calls(rt: HostRuntime) -> Result<(), Fail> {
    assert!(rt; IfSlot::new(7).is_some());
    assert!(rt; IfSlot::new(8).is_none());
    are_followed(&rt, rt.alloc(), &BOOKS)
}
