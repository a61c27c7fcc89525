//! Lines in each of the forms, and how what they ask is printed.

use iw_commands::{line_of, read_line};
use std::alloc::Global;
use std::process::Abort;

/// A line, and the printed line of its request.
type Row = (&'static [u8], &'static [u8]);

const RADIOS: [Row; 19] = [
    (b"at 120000", b"at 120000"),
    (
        b"radio add phy0 bands 2 width 20 radar 0 power 0 contexts 1",
        b"radio add phy0 bands 2 width 20 radar 0 power 0 contexts 1",
    ),
    (
        b"radio add phy1 bands 2,5 width 40 radar 20 power 2000 contexts 2 self",
        b"radio add phy1 bands 2,5 width 40 radar 20 power 2000 contexts 2 self",
    ),
    (
        b"radio add phy2 bands 5,6 width 320 radar 160 power 65535 contexts 8 noie",
        b"radio add phy2 bands 5,6 width 320 radar 160 power 65535 contexts 8 noie",
    ),
    (
        b"radio add phy7 bands 2,5,6 width 160 radar 80 power 3000 contexts 3 self noie",
        b"radio add phy7 bands 2,5,6 width 160 radar 80 power 3000 contexts 3 self noie",
    ),
    (b"radio del phy7", b"radio del phy7"),
    (
        b"radio rules phy0 (2400-2472@40),(100 mW),NO-IR;  (5150 - 5350.5 @ 160), (20), DFS,AUTO-BW # x",
        b"radio rules phy0 (2400 - 2472 @ 40), (20), NO-IR; (5150 - 5350.5 @ 160), (20), DFS, AUTO-BW",
    ),
    (b"element phy0 47422024FF", b"element phy0 47422024ff"),
    (b"driver phy1 00", b"driver phy1 00"),
    (b"radar phy0 5181", b"radar phy0 5181 NOHT"),
    (b"radar phy0 5180 HT40+", b"radar phy0 5180 40 5190"),
    (b"radar phy0 5180 20", b"radar phy0 5180 20"),
    (b"radar phy0 5180 20 5190", b"radar phy0 5180 20 5190"),
    (b"indoor on", b"indoor on"),
    (b"indoor off", b"indoor off"),
    (b"iw reg get", b"iw reg get"),
    (b"iw reg set US", b"iw reg set US"),
    (b"iw phy phy3 info", b"iw phy phy3 info"),
    (b"iw phy phy3 channels", b"iw phy phy3 channels"),
];

const INTERFACES: [Row; 23] = [
    (
        b"iw phy phy0 interface add ap0 type adhoc",
        b"iw phy phy0 interface add ap0 type ibss",
    ),
    (b"iw dev ap0 info", b"iw dev ap0 info"),
    (b"iw dev ap0 del", b"iw dev ap0 del"),
    (
        b"iw dev ap0 set type station",
        b"iw dev ap0 set type managed",
    ),
    (b"iw dev w set freq 2412", b"iw dev w set freq 2412 NOHT"),
    (
        b"iw dev w set freq 2412 HT40+",
        b"iw dev w set freq 2412 40 2422",
    ),
    (b"iw dev w set freq 2412 20", b"iw dev w set freq 2412 20"),
    (
        b"iw dev w set freq 5180 80 5210",
        b"iw dev w set freq 5180 80 5210",
    ),
    (b"iw dev w set channel 14", b"iw dev w set freq 2484 NOHT"),
    (
        b"iw dev w set channel 36 160MHz",
        b"iw dev w set freq 5180 160 5250",
    ),
    (b"iw dev w set channel 1 20", b"iw dev w set freq 2412 20"),
    (
        b"iw dev w set channel 36 40 5190",
        b"iw dev w set freq 5180 40 5190",
    ),
    (b"iw dev w set txpower auto", b"iw dev w set txpower auto"),
    (
        b"iw dev w set txpower limit 2000",
        b"iw dev w set txpower limit 2000",
    ),
    (
        b"iw dev w set txpower fixed 65535",
        b"iw dev w set txpower fixed 65535",
    ),
    (
        b"iw dev w cac trigger freq 5260",
        b"iw dev w cac trigger freq 5260 NOHT",
    ),
    (
        b"iw dev w cac trigger freq 5260 NOHT",
        b"iw dev w cac trigger freq 5260 NOHT",
    ),
    (
        b"iw dev w cac trigger freq 5260 20",
        b"iw dev w cac trigger freq 5260 20",
    ),
    (
        b"iw dev w cac trigger freq 5260 320 5260",
        b"iw dev w cac trigger freq 5260 320 5260",
    ),
    (
        b"iw dev w cac trigger channel 100",
        b"iw dev w cac trigger freq 5500 NOHT",
    ),
    (
        b"iw dev w cac trigger channel 100 HT20",
        b"iw dev w cac trigger freq 5500 20",
    ),
    (
        b"iw dev w cac trigger channel 100 20",
        b"iw dev w cac trigger freq 5500 20",
    ),
    (
        b"iw dev w cac trigger channel 100 40 5510",
        b"iw dev w cac trigger freq 5500 40 5510",
    ),
];

const OPERATIONS: [Row; 21] = [
    (
        b"iw  dev ap0 ap start home 5180 100 2",
        b"iw dev ap0 ap start net 5180 NOHT 100 2",
    ),
    (
        b"iw dev w ap start home 5180 HT20 1 65535",
        b"iw dev w ap start net 5180 20 100 2",
    ),
    (
        b"iw dev w ap start home 5180 20 100 2",
        b"iw dev w ap start net 5180 20 100 2",
    ),
    (
        b"iw dev w ap start home 5180 160 5250 100 2",
        b"iw dev w ap start net 5180 160 5250 100 2",
    ),
    (
        b"iw dev w ap start home 5180 100 2 head 00",
        b"iw dev w ap start net 5180 NOHT 100 2",
    ),
    (
        b"iw dev w ap start home 5180 80MHz 100 2 head 00",
        b"iw dev w ap start net 5180 80 5210 100 2",
    ),
    (
        b"iw dev w ap start home 5180 20 100 2 head 00",
        b"iw dev w ap start net 5180 20 100 2",
    ),
    (
        b"iw dev w ap start home 5180 40 5190 100 2 head 00",
        b"iw dev w ap start net 5180 40 5190 100 2",
    ),
    (b"iw dev w ap stop", b"iw dev w ap stop"),
    (
        b"iw dev w ibss join home 2484",
        b"iw dev w ibss join net 2484 NOHT",
    ),
    (
        b"iw dev w ibss join home 5200 HT40-",
        b"iw dev w ibss join net 5200 40 5190",
    ),
    (
        b"iw dev w ibss join home 2484 20",
        b"iw dev w ibss join net 2484 20",
    ),
    (
        b"iw dev w ibss join home 5180 80 5210",
        b"iw dev w ibss join net 5180 80 5210",
    ),
    (b"iw dev w ibss leave", b"iw dev w ibss leave"),
    (
        b"iw dev w mesh join home freq 2412",
        b"iw dev w mesh join net freq 2412 NOHT",
    ),
    (
        b"iw dev w mesh join home freq 2412 HT20",
        b"iw dev w mesh join net freq 2412 20",
    ),
    (
        b"iw dev w mesh join home freq 2412 20",
        b"iw dev w mesh join net freq 2412 20",
    ),
    (
        b"iw dev w mesh join home freq 2412 40 2422",
        b"iw dev w mesh join net freq 2412 40 2422",
    ),
    (b"iw dev w mesh leave", b"iw dev w mesh leave"),
    (b"iw dev w connect home 2412", b"iw dev w connect net 2412"),
    (b"iw dev w disconnect", b"iw dev w disconnect"),
];

/// The line asks what is printed so.
fn prints(rt: &impl Abort, alloc: Global, line: &[u8], wanted: &[u8]) {
    match read_line(alloc, line) {
        Ok(Some(request)) => match line_of(alloc, &request) {
            Ok(printed) => assert!(rt; printed.as_slice() == wanted, "{line:?}"),
            Err(fault) => assert!(rt; false, "{fault:?}"),
        },
        _ => assert!(rt; false, "{line:?}"),
    }
}

/// Each line is printed as it should be, and what is printed is printed so again.
fn print_rows(rt: &impl Abort, alloc: Global, rows: &[Row]) {
    for (line, wanted) in rows {
        prints(rt, alloc, line, wanted);
        prints(rt, alloc, wanted, wanted);
    }
}

#[test]
fn lines_of_radios(rt: HostRuntime) {
    print_rows(&rt, rt.alloc(), &RADIOS);
}

#[test]
fn lines_of_interfaces(rt: HostRuntime) {
    print_rows(&rt, rt.alloc(), &INTERFACES);
}

#[test]
fn lines_of_operations(rt: HostRuntime) {
    print_rows(&rt, rt.alloc(), &OPERATIONS);
}
