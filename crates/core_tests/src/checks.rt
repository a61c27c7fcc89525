//! Powers, checks, radar and drivers that fail, by steps and by the calls that take no memory. Worked out by hand.

use crate::calls::{Case, Way, hold};
use crate::requests::{COUNTRY, RADIO};
use std::test::Fail;

const CHECKED: [Case<'_>; 6] = [
    Case {
        name: "a power is asked within its limit, and what runs keeps its type",
        failing: &[],
        before: COUNTRY,
        transcript: b"> iw dev ap0 ap start home 5220 40 5210 100 2
started 2300
> iw dev ap0 set txpower fixed 2400
refused: power 2300
> iw dev ap0 set txpower fixed 1000
ok
\tpower ap0 1000
> iw dev ap0 set type managed
refused: busy
> iw dev ap0 ibss join x 5180
refused: wrong type
> iw dev ap0 ap stop
ok
> iw dev ap0 ap stop
refused: not running
",
    },
    Case {
        name: "radar drops a check at its last moment, and forbids for half an hour",
        failing: &[],
        before: COUNTRY,
        transcript: b"> iw dev ap0 cac trigger freq 5260
checking 60000
> at 59999
ok
> radar phy0 5260 20
ok
\tdropped ap0
> at 60000
ok
> iw dev ap0 ap start home 5260 100 2
refused: radar 5260
> at 1859999
ok
> iw dev ap0 ap start home 5260 100 2
refused: unchecked 5260
",
    },
    Case {
        name: "radar drops no check that is done, and takes what it found",
        failing: &[],
        before: COUNTRY,
        transcript: b"> iw dev ap0 cac trigger freq 5260
checking 60000
> at 60000
ok
> radar phy0 5260 20
ok
> at 1860000
ok
> iw dev ap0 ap start home 5260 100 2
refused: unchecked 5260
",
    },
    // its 60 seconds go by, and its rules are back before
    Case {
        name: "a check that custom rules drop frees nothing",
        failing: &[],
        before: COUNTRY,
        transcript: b"> iw dev ap0 cac trigger freq 5260
checking 60000
> radio rules phy0 (2400 - 2472 @ 40), (20)
ok
\tdropped ap0
> radio rules phy0 (5250 - 5350 @ 80), (20), DFS
ok
> at 60000
ok
> iw dev ap0 ap start home 5260 100 2
refused: unchecked 5260
> iw dev ap0 cac trigger freq 5260
checking 60000
",
    },
    Case {
        name: "radar ends what runs on a checked channel, until it may be checked again",
        failing: &[],
        before: COUNTRY,
        transcript: b"> iw phy phy0 interface add ap1 type __ap
ok
> iw dev ap0 ap start home 5180 160 5250 100 2
refused: unchecked 5260
> iw dev ap0 cac trigger freq 5180 160 5250
checking 60000
> at 59999
ok
> iw dev ap0 ap start home 5180 160 5250 100 2
refused: busy
> iw dev ap1 ap start home 5180 160 5250 100 2
refused: unchecked 5260
> at 60000
ok
> iw dev ap0 ap start home 5180 160 5250 100 2
started 2300
> at 70000
ok
> radar phy0 5300 20
ok
\tstopped ap0
> at 1869999
ok
> iw dev ap0 cac trigger freq 5180 160 5250
refused: radar 5300
> at 1870000
ok
> iw dev ap0 cac trigger freq 5180 160 5250
checking 60000
",
    },
    Case {
        name: "a change of region takes checks, and leaves what radar forbids",
        failing: &[],
        before: COUNTRY,
        transcript: b"> iw dev ap0 cac trigger freq 5260
checking 60000
> at 60000
ok
> radar phy0 5280 20
ok
> element phy0 474220240417
hint replaced
> element phy0 555320240417
hint replaced
> iw dev ap0 ap start home 5260 100 2
refused: unchecked 5260
> iw dev ap0 ap start home 5280 100 2
refused: radar 5280
",
    },
];

#[test]
fn powers_checks_and_radar(rt: HostRuntime) -> Result<(), Fail> {
    hold(&rt, rt.alloc(), Way::Step, &CHECKED)?;
    hold(&rt, rt.alloc(), Way::Calls, &CHECKED)
}

const LAPSING: [Case<'_>; 3] = [
    Case {
        name: "an unused check lapses after two seconds",
        failing: &[],
        before: COUNTRY,
        transcript: b"> iw dev ap0 cac trigger freq 5260
checking 60000
> at 62000
ok
> iw dev ap0 ap start home 5260 100 2
refused: unchecked 5260
> iw dev ap0 cac trigger freq 5260
checking 60000
",
    },
    Case {
        name: "an operation keeps its check, and two seconds after it",
        failing: &[],
        before: COUNTRY,
        transcript: b"> iw dev ap0 cac trigger freq 5260
checking 60000
> at 61999
ok
> iw dev ap0 ap start home 5260 100 2
started 2400
> at 100000
ok
> iw dev ap0 ap stop
ok
> at 101999
ok
> iw dev ap0 ap start home 5260 100 2
started 2400
> iw dev ap0 ap stop
ok
> at 103999
ok
> iw dev ap0 ap start home 5260 100 2
refused: unchecked 5260
",
    },
    Case {
        name: "in the region ETSI a check stands on",
        failing: &[],
        before: RADIO,
        transcript: b"> element phy0 474220240417
hint replaced
> indoor on
ok
> iw dev ap0 cac trigger freq 5260
checking 60000
> at 90000
ok
> iw dev ap0 ap start home 5260 100 2
started 2000
",
    },
];

#[test]
fn checks_that_lapse(rt: HostRuntime) -> Result<(), Fail> {
    hold(&rt, rt.alloc(), Way::Step, &LAPSING)
}

const FAILED: [Case<'_>; 4] = [
    Case {
        name: "a check that its driver fails doesn't run",
        failing: &[1],
        before: COUNTRY,
        transcript: b"> iw dev ap0 cac trigger freq 5260
refused: driver failed
> iw dev ap0 info
ap0 1 phy0 __ap
\ttxpower auto
\tidle
> at 60000
ok
> iw dev ap0 ap start home 5260 100 2
refused: unchecked 5260
> iw dev ap0 cac trigger freq 5260
checking 60000
",
    },
    // the check lapsed, and the next one is told with the same words
    Case {
        name: "a driver is told of an equal check again",
        failing: &[2],
        before: COUNTRY,
        transcript: b"> iw dev ap0 cac trigger freq 5260
checking 60000
> at 62000
ok
> iw dev ap0 cac trigger freq 5260
refused: driver failed
> iw dev ap0 cac trigger freq 5260
checking 60000
",
    },
    Case {
        name: "a start that its driver fails leaves nothing on air",
        failing: &[1],
        before: RADIO,
        transcript: b"> iw dev ap0 ap start home 2412 HT20 100 2
refused: driver failed
> iw dev ap0 ap stop
refused: not running
> iw dev ap0 ap start home 2412 HT20 100 2
started 2000
",
    },
    Case {
        name: "the second start fails, and the first goes on",
        failing: &[2],
        before: RADIO,
        transcript: b"> iw phy phy0 interface add ap1 type __ap
ok
> iw dev ap0 ap start home 2412 100 2
started 2000
> iw dev ap1 ap start home 2412 100 2
refused: driver failed
> iw reg set US
hint replaced
\tpower ap0 3000
> iw dev ap1 ap start home 2412 100 2
started 3000
",
    },
];

#[test]
fn drivers_that_fail(rt: HostRuntime) -> Result<(), Fail> {
    hold(&rt, rt.alloc(), Way::Step, &FAILED)?;
    hold(&rt, rt.alloc(), Way::Calls, &FAILED)
}
