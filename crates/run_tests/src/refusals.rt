//! Lines that are refused, each for its cause. The replies are worked out by hand from the rules.

use crate::calls::{Case, RULES};

/// Rules of a country with little width, and of one that permits nobody to operate outdoors.
const NARROW: &[u8] = b"country 00:
\t(2402 - 2472 @ 10), (20)
\t(5170 - 5250 @ 80), (20), NO-OUTDOOR
\t(5250 - 5330 @ 80), (20), DFS
";

/// Scripts with lines that are refused.
pub const REFUSED: [Case<'_>; 6] = [
    // A radio's number is taken once; an interface stands on a radio that was added.
    Case {
        name: "radios are added once",
        text: RULES,
        failing: &[],
        faults: Some(0),
        transcript: b"> iw phy phy0 interface add ap0 type __ap
refused: no radio phy0
> radio add phy0 bands 2,5 width 160 radar 160 power 3000 contexts 2
ok
> radio add phy0 bands 2,5 width 160 radar 160 power 3000 contexts 2
refused: slot used phy0
> radio add phy0 bands 2 width 20 radar 0 power 2000 contexts 1
refused: slot used phy0
> iw phy phy7 interface add ap0 type __ap
refused: no radio phy7
",
    },
    // Names are those of all radios. A ninth interface of a radio is refused, and first for its name.
    Case {
        name: "a radio has eight interfaces",
        text: RULES,
        failing: &[],
        faults: Some(0),
        transcript: b"> radio add phy0 bands 2,5 width 160 radar 160 power 3000 contexts 2
ok
> radio add phy1 bands 2 width 20 radar 0 power 2000 contexts 1
ok
> iw phy phy0 interface add a type __ap
ok
> iw phy phy0 interface add a type __ap
refused: name taken a
> iw phy phy1 interface add a type __ap
refused: name taken a
> iw phy phy0 interface add b type __ap
ok
> iw phy phy0 interface add c type __ap
ok
> iw phy phy0 interface add d type __ap
ok
> iw phy phy0 interface add e type __ap
ok
> iw phy phy0 interface add f type __ap
ok
> iw phy phy0 interface add g type __ap
ok
> iw phy phy0 interface add h type __ap
ok
> iw phy phy0 interface add i type __ap
refused: full
> iw phy phy0 interface add h type __ap
refused: name taken h
> iw phy phy1 interface add i type __ap
ok
",
    },
    // An interface that isn't there comes before a channel that is none.
    Case {
        name: "only an interface that runs is stopped",
        text: RULES,
        failing: &[],
        faults: Some(0),
        transcript: b"> iw dev ap0 ap start home 2412 100 2
refused: no interface ap0
> iw dev ap0 ap start home 2413 100 2
refused: no interface ap0
> iw dev ap0 ap stop
refused: no interface ap0
> radio add phy0 bands 2,5 width 160 radar 160 power 3000 contexts 2
ok
> iw phy phy0 interface add ap0 type __ap
ok
> iw dev ap0 ap stop
refused: not running
> iw dev ap0 ap start home 2412 100 2
started 2000
> iw dev ap1 ap stop
refused: no interface ap1
> iw dev ap0 ap stop
ok
> iw dev ap0 ap stop
refused: not running
",
    },
    // What the radio lacks comes before what the rules forbid: 2467 and 5955 MHz have no rule.
    Case {
        name: "a radio lacks channels and contexts",
        text: RULES,
        failing: &[],
        faults: Some(0),
        transcript: b"> radio add phy0 bands 2 width 20 radar 0 power 3000 contexts 1
ok
> iw phy phy0 interface add ap0 type __ap
ok
> iw phy phy0 interface add ap1 type __ap
ok
> iw dev ap0 ap start home 5180 100 2
refused: radio lacks 5180
> iw dev ap0 ap start home 5955 100 2
refused: radio lacks 5955
> iw dev ap0 ap start home 2412 100 2
started 2000
> iw dev ap1 ap start home 2437 100 2
refused: radio lacks context 1
> iw dev ap1 ap start home 2467 100 2
refused: radio lacks context 1
> # both on one channel
> iw dev ap1 ap start home 2412 100 2
started 2000
> iw dev ap0 ap stop
ok
> iw dev ap0 ap start home 2437 100 2
refused: radio lacks context 1
> iw dev ap1 ap stop
ok
> iw dev ap0 ap start home 2437 100 2
started 2000
",
    },
    // A rule of 10 MHz, one for indoors alone, and one with DFS.
    Case {
        name: "rules forbid channels",
        text: NARROW,
        failing: &[],
        faults: Some(0),
        transcript: b"> radio add phy0 bands 2,5 width 20 radar 0 power 3000 contexts 8
ok
> radio add phy1 bands 2,5 width 20 radar 20 power 3000 contexts 8
ok
> iw phy phy0 interface add ap0 type __ap
ok
> iw phy phy1 interface add ap1 type __ap
ok
> iw dev ap0 ap start home 2412 100 2
refused: width 2412
> iw dev ap0 ap start home 5180 100 2
refused: NO-OUTDOOR 5180
> iw dev ap0 ap start home 5260 100 2
refused: radio lacks radar width 20
> iw dev ap1 ap start home 5260 100 2
refused: unchecked 5260
> iw dev ap0 ap start home 5500 100 2
refused: no rule 5500
",
    },
    // A hint for the country that the list has alone changes nothing, so it is taken while something runs.
    Case {
        name: "hints may be set already",
        text: RULES,
        failing: &[],
        faults: Some(0),
        transcript: b"> iw reg set 00
hint already set
> iw reg set US
hint replaced
> iw reg set US
hint already set
> radio add phy0 bands 2,5 width 160 radar 160 power 3000 contexts 2
ok
> iw phy phy0 interface add ap0 type __ap
ok
> iw dev ap0 ap start home 5180 100 2
started 2300
> iw reg set US
hint already set
> iw reg set FR
refused: no country FR
> iw dev ap0 ap start home 5180 100 2
refused: busy
> iw reg set 00
hint replaced
\tstopped ap0
> iw dev ap0 ap stop
refused: not running
> iw dev ap0 ap start home 5180 100 2
refused: NO-IR 5180
",
    },
];
