//! Requests and their replies, worked out by hand from the rules.

use crate::calls::{Case, RULES, Way, follow, hold, opened};
use std::test::Fail;

/// A radio of both bands, and an access point on it.
pub const RADIO: &[u8] = b"> radio add phy0 bands 2,5 width 160 radar 160 power 3000 contexts 2
ok
> iw phy phy0 interface add ap0 type __ap
ok
";

/// The same in a country with radar channels.
pub const COUNTRY: &[u8] = b"> radio add phy0 bands 2,5 width 160 radar 160 power 3000 contexts 2
ok
> iw phy phy0 interface add ap0 type __ap
ok
> iw reg set US
hint replaced
";

const HINTED: [Case<'_>; 5] = [
    Case {
        name: "the power follows each hint, and custom rules stop what they don't allow",
        failing: &[],
        before: RADIO,
        transcript: b"> iw dev ap0 ap start home 2412 100 2
started 2000
> iw reg set US
hint replaced
\tpower ap0 3000
> element phy0 474220240417
hint replaced
\tpower ap0 2000
> element phy0 4742202404
refused: element short 5
> radio rules phy0 (5150 - 5250 @ 80), (20)
ok
\tstopped ap0
",
    },
    Case {
        name: "a driver's hint may be set already",
        failing: &[],
        before: RADIO,
        transcript: b"> driver phy0 US
hint replaced
> driver phy0 US
hint already set
> iw reg set FR
refused: no country FR
",
    },
    Case {
        name: "a user's hint is joined with what was heard, and a third is ignored",
        failing: &[],
        before: RADIO,
        transcript: b"> element phy0 474220240417
hint replaced
> iw reg set US
hint intersected
> iw dev ap0 ap start home 5180 100 2
refused: NO-OUTDOOR 5180
> indoor on
ok
> iw dev ap0 ap start home 5180 100 2
started 2300
> iw reg set GB
hint ignored
",
    },
    // the first has no rules but its driver's, and no hint of the user moves it
    Case {
        name: "a radio that manages itself, and one that hears no elements",
        failing: &[],
        before: b"",
        transcript: b"> radio add phy0 bands 2 width 20 radar 0 power 3000 contexts 1 self
ok
> radio add phy1 bands 2 width 20 radar 0 power 3000 contexts 1 noie
ok
> iw phy phy0 interface add ap0 type __ap
ok
> iw dev ap0 ap start home 2412 100 2
refused: no rule 2412
> driver phy0 US
hint own
> iw dev ap0 ap start home 2412 100 2
started 3000
> element phy1 474220240417
hint ignored
> iw reg set GB
hint replaced
> driver phy0 GB
hint own
\tpower ap0 2000
",
    },
    Case {
        name: "interfaces are swept in the order in which they were made",
        failing: &[],
        before: b"",
        transcript: b"> radio add phy0 bands 2,5 width 160 radar 160 power 3000 contexts 2
ok
> iw phy phy0 interface add gone type __ap
ok
> iw phy phy0 interface add sta0 type managed
ok
> iw phy phy0 interface add ap0 type managed
ok
> iw dev ap0 set type __ap
ok
> iw phy phy0 interface add mon0 type monitor
ok
> iw dev gone del
ok
> iw reg set US
hint replaced
> iw dev ap0 cac trigger freq 5260
checking 60000
> iw dev mon0 set freq 2412
started 3000
> iw dev sta0 connect home 2412
started 3000
> iw reg set 00
hint replaced
\tpower sta0 2000
\tdropped ap0
\tpower mon0 2000
",
    },
];

#[test]
fn hints_and_custom_rules(rt: HostRuntime) -> Result<(), Fail> {
    hold(&rt, rt.alloc(), Way::Step, &HINTED)
}

const SHOWN: [Case<'_>; 2] = [
    Case {
        name: "a wide custom rule reaches over two rules of the country",
        failing: &[],
        before: COUNTRY,
        transcript: b"> radio rules phy0 (5150 - 5350 @ 160), (20)
ok
> iw dev ap0 cac trigger freq 5180 160 5250
checking 60000
> at 60000
ok
> iw dev ap0 ap start home 5180 160 5250 100 2
started 2000
> iw reg get
global
country US: DFS-FCC
\t(2400 - 2472 @ 40), (N/A, 30), (N/A)
\t(5150 - 5250 @ 80), (N/A, 23), (N/A), AUTO-BW
\t(5250 - 5350 @ 80), (N/A, 24), (0 ms), DFS, AUTO-BW
phy#0
country 98: DFS-FCC
\t(5150 - 5250 @ 160), (N/A, 20), (N/A)
\t(5250 - 5350 @ 160), (N/A, 20), (0 ms), DFS
",
    },
    Case {
        name: "a radio, its interface and its channels",
        failing: &[],
        before: b"",
        transcript: b"> radio add phy0 bands 2 width 40 radar 0 power 1500 contexts 1
ok
> iw phy phy0 interface add ap0 type __ap
ok
> iw dev ap0 ap start home 2412 HT20 100 2
started 1500
> iw dev ap0 info
ap0 1 phy0 __ap
\ttxpower auto
\tap 2412 20 2412 1500
> iw phy phy0 info
phy0 bands 2 width 40 radar 0 power 1500 contexts 1
\tap0 1 __ap
> iw phy phy0 channels
\t2412 [1] 1500 mBm 40 MHz
\t2417 [2] 1500 mBm 40 MHz
\t2422 [3] 1500 mBm 40 MHz
\t2427 [4] 1500 mBm 40 MHz
\t2432 [5] 1500 mBm 40 MHz
\t2437 [6] 1500 mBm 40 MHz
\t2442 [7] 1500 mBm 40 MHz
\t2447 [8] 1500 mBm 40 MHz
\t2452 [9] 1500 mBm 40 MHz
\t2457 [10] 1500 mBm 40 MHz
\t2462 [11] 1500 mBm 40 MHz
\t2467 [12] disabled
\t2472 [13] disabled
\t2484 [14] disabled
",
    },
];

#[test]
fn what_is_shown(rt: HostRuntime) -> Result<(), Fail> {
    hold(&rt, rt.alloc(), Way::Step, &SHOWN)
}

const REMOVED: &[u8] = b"> iw phy phy0 interface add sta0 type managed
ok
> iw dev ap0 ap start home 2412 100 2
started 2000
> radio del phy0
ok
\tstopped ap0
> iw dev sta0 info
refused: no interface sta0
> radio add phy0 bands 2 width 20 radar 0 power 2000 contexts 1
refused: slot used phy0
";

#[test]
fn a_removed_radio_gives_its_driver_up(rt: HostRuntime) -> Result<(), Fail> {
    let alloc = rt.alloc();
    let (mut core, mut drivers) = opened(alloc, RULES, &[])?;
    let before = follow(alloc, Way::Step, &mut core, RADIO, &mut drivers)?;
    let then = follow(alloc, Way::Step, &mut core, REMOVED, &mut drivers)?;
    assert!(rt; before && then);
    assert!(rt; matches!(drivers.as_slice(), [None, Some(_), ..]));
    Ok(())
}
