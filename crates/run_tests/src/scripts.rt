//! Scripts over databases, and the replies that each line has to have, worked out by hand from the rules.

use crate::calls::{Case, RULES, replies};
use crate::refusals::REFUSED;
use crate::swept::SWEPT;
use std::test::Fail;

const ANSWERED: [Case<'_>; 8] = [
    Case {
        name: "starts follow the rules of the country",
        text: RULES,
        failing: &[],
        faults: Some(0),
        transcript: b"> radio add phy0 bands 2,5 width 160 radar 160 power 3000 contexts 2
ok
> iw phy phy0 interface add ap0 type __ap
ok
> iw dev ap0 ap start home 5180 100 2
refused: NO-IR 5180
> iw dev ap0 ap start home 2467 100 2
refused: no rule 2467
> iw dev ap0 ap start home 2412 100 2
started 2000
> iw dev ap0 ap start home 2412 100 2
refused: busy
> iw reg set US
hint replaced
\tpower ap0 3000
> iw dev ap0 ap stop
ok
> iw reg set US
hint already set
> iw reg set FR
refused: no country FR
> iw dev ap0 ap start home 5260 100 2
refused: unchecked 5260
> iw dev ap0 ap start home 2413 100 2
refused: bad channel
> iw dev ap0 ap start home 5180 100 2
started 2300
> iw reg fly
line fault: unknown word 3
",
    },
    Case {
        name: "a database without countries has the rules of the world",
        text: b"",
        failing: &[],
        faults: Some(0),
        transcript: b"> radio add phy0 bands 2,5 width 160 radar 160 power 3000 contexts 2
ok
> iw phy phy0 interface add ap0 type __ap
ok
> iw dev ap0 ap start home 2467 100 2
refused: no rule 2467
> iw dev ap0 ap start home 2412 100 2
started 2000
",
    },
    Case {
        name: "moments go on and are not too large",
        text: RULES,
        failing: &[],
        faults: Some(0),
        transcript: b"> at 5
ok
> at 4
refused: moment back 5
> at 5
ok
> at 1000000000000000
ok
> at 1000000000000001
refused: moment too large 1000000000000001
",
    },
    // What came before the moment goes on, and radios come at any moment.
    Case {
        name: "a radio may come after a moment",
        text: RULES,
        failing: &[],
        faults: Some(0),
        transcript: b"> at 60000
ok
> radio add phy0 bands 2,5 width 160 radar 160 power 3000 contexts 2
ok
> iw phy phy0 interface add ap0 type __ap
ok
> iw dev ap0 ap start home 2412 100 2
started 2000
> at 59999
refused: moment back 60000
> at 120000
ok
> iw dev ap0 ap start home 2412 100 2
refused: busy
> radio add phy7 bands 2 width 20 radar 0 power 500 contexts 1
ok
> iw phy phy7 interface add ap7 type __ap
ok
> iw dev ap7 ap start home 2412 100 2
started 500
> iw dev ap0 ap stop
ok
",
    },
    // Each radio has bands, a power, contexts and a driver of its own. The first one's driver fails once.
    Case {
        name: "two radios stand apart",
        text: RULES,
        failing: &[1],
        faults: Some(1),
        transcript: b"> radio add phy0 bands 2 width 20 radar 0 power 1500 contexts 1
ok
> radio add phy1 bands 5 width 80 radar 80 power 3000 contexts 1
ok
> iw phy phy0 interface add ap0 type __ap
ok
> iw phy phy1 interface add ap1 type __ap
ok
> iw reg set US
hint replaced
> iw dev ap1 ap start home 2412 100 2
refused: radio lacks 2412
> iw dev ap1 ap start home 5180 100 2
started 2300
> iw dev ap0 ap start home 5180 100 2
refused: radio lacks 5180
> iw dev ap0 ap start home 2412 100 2
refused: driver failed
> iw dev ap0 ap start home 2412 100 2
started 1500
> iw dev ap1 ap stop
ok
> iw dev ap0 ap start home 2412 100 2
refused: busy
> iw dev ap1 ap stop
refused: not running
> iw dev ap1 ap start home 5200 100 2
started 2300
",
    },
    // The start that failed left nothing on air, so the next one isn't refused as busy.
    Case {
        name: "a start that its driver fails changes nothing",
        text: RULES,
        failing: &[1],
        faults: Some(1),
        transcript: b"> radio add phy0 bands 2,5 width 160 radar 160 power 3000 contexts 2
ok
> iw phy phy0 interface add ap0 type __ap
ok
> iw dev ap0 ap start home 2412 100 2
refused: driver failed
> iw dev ap0 ap start home 2412 100 2
started 2000
> iw dev ap0 ap start home 2412 100 2
refused: busy
",
    },
    Case {
        name: "a check that its driver fails doesn't begin",
        text: RULES,
        failing: &[1],
        faults: Some(1),
        transcript: b"> radio add phy0 bands 2,5 width 160 radar 160 power 3000 contexts 2
ok
> iw phy phy0 interface add ap0 type __ap
ok
> iw reg set US
hint replaced
> iw dev ap0 cac trigger freq 5260
refused: driver failed
> iw dev ap0 info
ap0 1 phy0 __ap
\ttxpower auto
\tidle
> iw dev ap0 cac trigger freq 5260
checking 60000
",
    },
    Case {
        name: "lines that ask nothing have no reply",
        text: RULES,
        failing: &[],
        faults: Some(0),
        transcript: b"> 
> # a radio
> radio add phy0 bands 2,5 width 160 radar 160 power 3000 contexts 2
ok
>  \t 
> \t#
> at x
line fault: bad number word 2
> at 5\r
line fault: not ascii
>   at\t5  
ok
",
    },
];

#[test]
fn scripts_have_their_replies(rt: HostRuntime) -> Result<(), Fail> {
    replies(&rt, rt.alloc(), &ANSWERED)?;
    replies(&rt, rt.alloc(), &REFUSED)?;
    replies(&rt, rt.alloc(), &SWEPT)
}
