//! Checks, radar, moving radios and hints, with what they sweep away. The replies are worked out by hand from the rules.

use crate::calls::{Case, RULES};

/// The world, and two countries whose regions differ.
const REGIONS: &[u8] = b"country 00:
\t(2402 - 2472 @ 40), (20)
\t(5170 - 5250 @ 80), (20), NO-IR, AUTO-BW
\t(5250 - 5330 @ 80), (20), NO-IR, DFS, AUTO-BW
country US: DFS-FCC
\t(2400 - 2472 @ 40), (30)
\t(5150 - 5250 @ 80), (23), AUTO-BW
\t(5250 - 5350 @ 80), (24), DFS, AUTO-BW
country GB: DFS-ETSI
\t(2400 - 2483.5 @ 40), (100 mW)
\t(5150 - 5250 @ 80), (200 mW), NO-OUTDOOR, AUTO-BW
\t(5250 - 5350 @ 80), (100 mW), NO-OUTDOOR, DFS, AUTO-BW
";

/// Scripts that sweep.
pub const SWEPT: [Case<'_>; 12] = [
    Case {
        name: "a check frees its channel for its radio, until radar",
        text: RULES,
        failing: &[],
        faults: Some(0),
        transcript: b"> radio add phy0 bands 2,5 width 160 radar 160 power 3000 contexts 2
ok
> iw phy phy0 interface add ap0 type __ap
ok
> iw reg set US
hint replaced
> iw phy phy0 interface add ap1 type __ap
ok
> iw dev ap0 ap start home 5180 160 5250 100 2
refused: unchecked 5260
> iw dev ap0 cac trigger freq 5180 160 5250
checking 60000
> at 59999
ok
> iw dev ap0 ap start home 5180 160 5250 100 2
refused: busy
> iw dev ap1 ap start home 5180 160 5250 100 2
refused: unchecked 5260
> at 60000
ok
> iw dev ap0 cac trigger freq 5180 160 5250
refused: nothing to check
> iw dev ap0 ap start home 5180 160 5250 100 2
started 2300
> at 70000
ok
> radar phy0 5300 20
ok
\tstopped ap0
> at 1869999
ok
> iw dev ap0 cac trigger freq 5180 160 5250
refused: radar 5300
> at 1870000
ok
> iw dev ap0 cac trigger freq 5180 160 5250
checking 60000
",
    },
    Case {
        name: "radar drops a running check",
        text: RULES,
        failing: &[],
        faults: Some(0),
        transcript: b"> radio add phy0 bands 2,5 width 160 radar 160 power 3000 contexts 2
ok
> iw phy phy0 interface add ap0 type __ap
ok
> iw reg set US
hint replaced
> iw dev ap0 cac trigger freq 5260
checking 60000
> at 30000
ok
> radar phy0 5260
ok
\tdropped ap0
> at 60000
ok
> iw dev ap0 ap start home 5260 100 2
refused: radar 5260
> radar phy1 5260
refused: no radio phy1
> radar phy0 5261
refused: bad channel
",
    },
    Case {
        name: "a station follows the power of the rules",
        text: RULES,
        failing: &[],
        faults: Some(0),
        transcript: b"> radio add phy0 bands 2,5 width 160 radar 160 power 3000 contexts 2
ok
> iw phy phy0 interface add ap0 type __ap
ok
> iw phy phy0 interface add sta0 type managed
ok
> iw dev ap0 ap start home 5180 100 2
refused: NO-IR 5180
> iw dev sta0 connect home 5180
started 2000
> iw reg set US
hint replaced
\tpower sta0 2300
> iw dev ap0 ap start home 5180 100 2
started 2300
> iw dev sta0 ap stop
refused: wrong type
> iw dev sta0 cac trigger freq 5260
refused: wrong type
> iw dev sta0 disconnect
ok
> iw dev sta0 disconnect
refused: not running
",
    },
    Case {
        name: "a country element and a user's hint are joined",
        text: REGIONS,
        failing: &[],
        faults: Some(0),
        transcript: b"> radio add phy0 bands 2,5 width 160 radar 160 power 3000 contexts 2
ok
> iw phy phy0 interface add ap0 type __ap
ok
> element phy0 474220240417
hint replaced
> iw reg set US
hint intersected
> iw dev ap0 ap start home 5180 100 2
refused: NO-OUTDOOR 5180
> indoor on
ok
> iw dev ap0 ap start home 5180 100 2
started 2300
> iw reg set GB
hint ignored
> indoor off
ok
\tstopped ap0
> element phy0 4742
refused: element short 2
> element phy0 47422024041701
refused: element odd 7
> element phy0 676220240417
refused: element not letters
",
    },
    Case {
        name: "what radar forbids stays, and checks go with the region",
        text: REGIONS,
        failing: &[],
        faults: Some(0),
        transcript: b"> radio add phy0 bands 2,5 width 160 radar 160 power 3000 contexts 2
ok
> iw phy phy0 interface add ap0 type __ap
ok
> iw reg set US
hint replaced
> iw dev ap0 cac trigger freq 5260
checking 60000
> at 60000
ok
> radar phy0 5280 20
ok
> element phy0 474220240417
hint replaced
> element phy0 555320240417
hint replaced
> iw dev ap0 ap start home 5260 100 2
refused: unchecked 5260
> iw dev ap0 ap start home 5280 100 2
refused: radar 5280
",
    },
    Case {
        name: "a check that isn't used stands for two seconds",
        text: REGIONS,
        failing: &[],
        faults: Some(0),
        transcript: b"> radio add phy0 bands 2,5 width 160 radar 160 power 3000 contexts 2
ok
> iw phy phy0 interface add ap0 type __ap
ok
> iw reg set US
hint replaced
> iw dev ap0 cac trigger freq 5260
checking 60000
> at 61999
ok
> iw dev ap0 ap start home 5260 100 2
started 2400
",
    },
    Case {
        name: "and no longer",
        text: REGIONS,
        failing: &[],
        faults: Some(0),
        transcript: b"> radio add phy0 bands 2,5 width 160 radar 160 power 3000 contexts 2
ok
> iw phy phy0 interface add ap0 type __ap
ok
> iw reg set US
hint replaced
> iw dev ap0 cac trigger freq 5260
checking 60000
> at 62000
ok
> iw dev ap0 ap start home 5260 100 2
refused: unchecked 5260
> iw dev ap0 cac trigger freq 5260
checking 60000
",
    },
    Case {
        name: "an operation keeps its check",
        text: REGIONS,
        failing: &[],
        faults: Some(0),
        transcript: b"> radio add phy0 bands 2,5 width 160 radar 160 power 3000 contexts 2
ok
> iw phy phy0 interface add ap0 type __ap
ok
> iw reg set US
hint replaced
> iw dev ap0 cac trigger freq 5260
checking 60000
> at 61999
ok
> iw dev ap0 ap start home 5260 100 2
started 2400
> at 100000
ok
> iw dev ap0 ap stop
ok
> at 101999
ok
> iw dev ap0 ap start home 5260 100 2
started 2400
> iw dev ap0 ap stop
ok
> at 103999
ok
> iw dev ap0 ap start home 5260 100 2
refused: unchecked 5260
",
    },
    Case {
        name: "in the region ETSI a check stands on",
        text: REGIONS,
        failing: &[],
        faults: Some(0),
        transcript: b"> radio add phy0 bands 2,5 width 160 radar 160 power 3000 contexts 2
ok
> iw phy phy0 interface add ap0 type __ap
ok
> element phy0 474220240417
hint replaced
> indoor on
ok
> iw dev ap0 cac trigger freq 5260
checking 60000
> at 90000
ok
> iw dev ap0 ap start home 5260 100 2
started 2000
",
    },
    Case {
        name: "320 MHz are for 6 GHz",
        text: b"country XX:\n\t(5925 - 7125 @ 320), (23)\n",
        failing: &[],
        faults: Some(0),
        transcript: b"> radio add phy0 bands 6 width 320 radar 0 power 3000 contexts 1
ok
> iw phy phy0 interface add ap0 type __ap
ok
> iw reg set XX
hint replaced
> iw dev ap0 ap start home 6275 320 6105 100 2
refused: bad channel
> iw dev ap0 ap start home 5180 320 5330 100 2
refused: bad channel
> iw dev ap0 ap start home 5955 320 6105 100 2
started 2300
",
    },
    Case {
        name: "a monitor moves to another channel, and its old one doesn't count",
        text: RULES,
        failing: &[],
        faults: Some(0),
        transcript: b"> radio add phy0 bands 2,5 width 160 radar 160 power 3000 contexts 1
ok
> iw phy phy0 interface add mon0 type monitor
ok
> iw phy phy0 interface add ap0 type __ap
ok
> iw dev mon0 set freq 2412
started 2000
> iw dev mon0 set channel 6
started 2000
> iw dev ap0 ap start home 2412 100 2
refused: radio lacks context 1
> iw dev ap0 ap start home 2437 100 2
started 2000
> iw dev mon0 set freq 2412
refused: radio lacks context 1
",
    },
    Case {
        name: "powers, custom rules, a driver's hint and removals",
        text: RULES,
        failing: &[],
        faults: None,
        transcript: b"> radio add phy0 bands 2,5 width 160 radar 160 power 3000 contexts 2
ok
> iw phy phy0 interface add ap0 type __ap
ok
> iw reg set US
hint replaced
> iw dev ap0 ap start home 5180 100 2
started 2300
> iw dev ap0 set type monitor
refused: busy
> iw dev ap0 set txpower limit 1500
ok
\tpower ap0 1500
> iw dev ap0 set txpower fixed 2400
refused: power 2300
> iw dev ap0 set txpower auto
ok
\tpower ap0 2300
> radio rules phy0 (5150 - 5350 @ 160), (20)
ok
\tpower ap0 2000
> driver phy0 US
hint intersected
> iw dev ap0 del
ok
\tstopped ap0
> iw dev ap0 info
refused: no interface ap0
> iw phy phy0 interface add ap0 type __ap
ok
> iw dev ap0 set type monitor
ok
> radio del phy0
ok
> radio add phy0 bands 2,5 width 160 radar 160 power 3000 contexts 2
refused: slot used phy0
> radio del phy0
refused: no radio phy0
",
    },
];
