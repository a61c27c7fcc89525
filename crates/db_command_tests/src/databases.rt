//! What is told of database files, and what is wrong with others. The answers are worked out by
//! hand from the format.

use crate::calls::{converted, give, refuse};
use crate::samples::{DE_FILE, GB_FILE, TWO_FILE, US as US_TEXT, US_FILE};
use db_commands::{Conversion, InputFault, Status};
use rule_tables::{Alpha2, DbFault};
use std::alloc::Global;
use std::process::Abort;
use std::test::Fail;

const US: Alpha2 = Alpha2 { a: b'U', b: b'S' };

const DE: Alpha2 = Alpha2 { a: b'D', b: b'E' };

/// What is told of a file without countries, and of one with a country of one rule.
const NOTHING: &[u8] = b"0 countries, 0 rules\n";

const ONE: &[u8] = b"1 countries, 1 rules\n";

/// The file of US with a check time of 60 seconds, and its collection at word 9.
const CHECK_TIME_FILE: [u8; 44] = [
    0x52, 0x47, 0x44, 0x42, 0x00, 0x00, 0x00, 0x14, //
    0x55, 0x53, 0x00, 0x09, //
    0x00, 0x00, 0x00, 0x00, //
    0x12, 0x00, 0x0b, 0xb8, 0x00, 0x24, 0x9f, 0x00, //
    0x00, 0x25, 0xb8, 0x40, 0x00, 0x00, 0x9c, 0x40, 0x00, 0x3c, 0x00, 0x00, //
    0x03, 0x01, 0x01, 0x00, 0x00, 0x04, 0x00, 0x00,
];

/// The entry of US twice, with the collection at word 9 and the rule at word 5.
const TWICE_FILE: [u8; 44] = [
    0x52, 0x47, 0x44, 0x42, 0x00, 0x00, 0x00, 0x14, //
    0x55, 0x53, 0x00, 0x09, 0x55, 0x53, 0x00, 0x09, //
    0x00, 0x00, 0x00, 0x00, //
    0x10, 0x00, 0x0b, 0xb8, 0x00, 0x24, 0x9f, 0x00, //
    0x00, 0x25, 0xb8, 0x40, 0x00, 0x00, 0x9c, 0x40, //
    0x03, 0x01, 0x01, 0x00, 0x00, 0x05, 0x00, 0x00,
];

/// AA with the rules at words 5 and 9 and the first of them again, and BB with that one.
const REPEATED_FILE: [u8; 72] = [
    0x52, 0x47, 0x44, 0x42, 0x00, 0x00, 0x00, 0x14, //
    0x41, 0x41, 0x00, 0x0d, 0x42, 0x42, 0x00, 0x10, //
    0x00, 0x00, 0x00, 0x00, //
    0x10, 0x00, 0x0b, 0xb8, 0x00, 0x24, 0x9f, 0x00, //
    0x00, 0x25, 0xb8, 0x40, 0x00, 0x00, 0x9c, 0x40, //
    0x10, 0x00, 0x07, 0xd0, 0x00, 0x24, 0x9f, 0x00, //
    0x00, 0x25, 0xb8, 0x40, 0x00, 0x00, 0x9c, 0x40, //
    0x03, 0x03, 0x01, 0x00, 0x00, 0x05, 0x00, 0x09, 0x00, 0x05, 0x00, 0x00, //
    0x03, 0x01, 0x01, 0x00, 0x00, 0x05, 0x00, 0x00,
];

/// The text of the file of DE, which has one WMM rule.
const DE_TEXT: &[u8] = b"wmmrule w0:
\tvo_c: cw_min=3, cw_max=7, aifsn=2, cot=2
\tvi_c: cw_min=7, cw_max=15, aifsn=2, cot=4
\tbe_c: cw_min=15, cw_max=1023, aifsn=3, cot=6
\tbk_c: cw_min=15, cw_max=1023, aifsn=7, cot=6
\tvo_ap: cw_min=3, cw_max=7, aifsn=1, cot=2
\tvi_ap: cw_min=7, cw_max=15, aifsn=1, cot=4
\tbe_ap: cw_min=15, cw_max=63, aifsn=3, cot=6
\tbk_ap: cw_min=15, cw_max=1023, aifsn=7, cot=6
country DE: DFS-ETSI
\t(5150 - 5250 @ 80), (23.01), NO-OUTDOOR, AUTO-BW, wmmrule=w0
";

/// The file isn't accepted for that fault.
const fn bad(fault: DbFault) -> InputFault {
    InputFault::Database(fault)
}

/// `check` answers that for the file: the line, or no byte with the fault.
fn tells(
    rt: &impl Abort,
    alloc: Global,
    file: &[u8],
    wanted: Result<&[u8], DbFault>,
) -> Result<(), Fail> {
    match wanted {
        Ok(line) => give(rt, alloc, Conversion::Check, &[(file, line)]),
        Err(fault) => refuse(rt, alloc, Conversion::Check, &[(file, bad(fault))]),
    }
}

/// The file with another byte at that place.
fn with_byte<const N: usize>(file: [u8; N], place: usize, byte: u8) -> [u8; N] {
    let mut edited = file;
    if let Some(old) = edited.get_mut(place) {
        *old = byte;
    }
    edited
}

#[test]
fn countries_and_rules_are_counted(rt: HostRuntime) -> Result<(), Fail> {
    let files: [(&[u8], &[u8]); 8] = [
        (&US_FILE, ONE),
        // only the bytes that fill up the collection are lost
        (&US_FILE[..39], ONE),
        (&US_FILE[..38], ONE),
        (&US_FILE[..8], NOTHING),
        (&CHECK_TIME_FILE, ONE),
        (&DE_FILE, ONE),
        (&TWO_FILE, b"2 countries, 2 rules\n"),
        // a repeated rule counts once in its country, and once in another
        (&REPEATED_FILE, b"2 countries, 3 rules\n"),
    ];
    give(&rt, rt.alloc(), Conversion::Check, &files)
}

#[test]
fn the_first_fault_of_a_file_is_told(rt: HostRuntime) -> Result<(), Fail> {
    let bad_region = with_byte(US_FILE, 34, 0x04);
    let short_rule = with_byte(US_FILE, 16, 0x0f);
    let rule_past_the_end = with_byte(US_FILE, 37, 0x0a);
    let faults: [(&[u8], InputFault); 11] = [
        (b"RGDB\0\0\0\x15", bad(DbFault::BadVersion(21))),
        (b"RGDC\0\0\0\x14", bad(DbFault::BadMagic(0x5247_4443))),
        (b"RGDB\0\0\0\x14US\0\x09", bad(DbFault::BadCollection(US))),
        (b"RGDB\0\0\0\x14US\0\x02", bad(DbFault::BadCollection(US))),
        (
            b"RGDB\0\0\0\x14us\0\x02",
            bad(DbFault::BadAlpha2(0x75, 0x73)),
        ),
        (&TWICE_FILE, bad(DbFault::CountryTwice(US))),
        (&bad_region, bad(DbFault::BadRegion(US, 4))),
        (&short_rule, bad(DbFault::BadRule(US, 0))),
        (&rule_past_the_end, bad(DbFault::BadRule(US, 0))),
        (&US_FILE[..37], bad(DbFault::BadCollection(US))),
        (&US_FILE[..7], bad(DbFault::Short(7))),
    ];
    refuse(&rt, rt.alloc(), Conversion::Check, &faults)?;
    refuse(&rt, rt.alloc(), Conversion::Decompile, &faults)
}

#[test]
fn files_give_their_texts(rt: HostRuntime) -> Result<(), Fail> {
    let files: [(&[u8], &[u8]); 6] = [
        (&US_FILE, US_TEXT),
        (&US_FILE[..38], US_TEXT),
        (&US_FILE[..8], b""),
        (
            &TWO_FILE,
            b"country AA: DFS-FCC\n\t(2400 - 2472 @ 40), (30)\ncountry BB: DFS-JP\n\t(2400 - 2472 @ 40), (30)\n",
        ),
        (
            &GB_FILE,
            b"country GB: DFS-ETSI\n\t(2400 - 2483.5 @ 40), (23.01)\n",
        ),
        (&DE_FILE, DE_TEXT),
    ];
    give(&rt, rt.alloc(), Conversion::Decompile, &files)
}

#[test]
fn a_check_time_has_no_text(rt: HostRuntime) -> Result<(), Fail> {
    let fault = InputFault::CacTime {
        country: US,
        rule: 0,
    };
    refuse(
        &rt,
        rt.alloc(),
        Conversion::Decompile,
        &[(&CHECK_TIME_FILE, fault)],
    )
}

// The entry ends at byte 12, and the last pointer of the collection at byte 74.
#[test]
fn a_file_cut_anywhere_has_its_answer(rt: HostRuntime) -> Result<(), Fail> {
    for count in 0..=DE_FILE.len() {
        let wanted = match count {
            0..8 => Err(DbFault::Short(count)),
            8..12 => Ok(NOTHING),
            12..74 => Err(DbFault::BadCollection(DE)),
            _ => Ok(ONE),
        };
        tells(&rt, rt.alloc(), &DE_FILE[..count], wanted)?;
    }
    Ok(())
}

#[test]
fn one_byte_changes_the_answer(rt: HostRuntime) -> Result<(), Fail> {
    let edits: [(usize, u8, Result<&[u8], DbFault>); 24] = [
        // the header
        (0, 0x00, Err(DbFault::BadMagic(0x0047_4442))),
        (7, 0xff, Err(DbFault::BadVersion(255))),
        // the entry's code and its pointer, of which 0 ends the list
        (8, 0xff, Err(DbFault::BadAlpha2(0xff, 0x45))),
        (10, 0xff, Err(DbFault::BadCollection(DE))),
        (11, 0x00, Ok(NOTHING)),
        // the next entry, which ends the list whatever its code is
        (12, 0xff, Ok(ONE)),
        (15, 0xff, Err(DbFault::BadAlpha2(0, 0))),
        // the WMM rule's first entry: its exponents, its AIFSN, its COT
        (16, 0x00, Err(DbFault::BadWmm(DE, 0))),
        (17, 0x00, Err(DbFault::BadWmm(DE, 0))),
        (17, 0xff, Ok(ONE)),
        (18, 0xff, Ok(ONE)),
        // the rule's length, its flags, its start and its width
        (48, 0x00, Err(DbFault::BadRule(DE, 0))),
        (48, 0xff, Err(DbFault::BadRule(DE, 0))),
        (49, 0xff, Ok(ONE)),
        (53, 0x00, Ok(ONE)),
        (53, 0xff, Err(DbFault::BadRule(DE, 0))),
        (61, 0xff, Err(DbFault::BadRule(DE, 0))),
        // its pointer to the WMM rule: 0 names the header
        (67, 0x00, Err(DbFault::BadWmm(DE, 0))),
        // the collection's length, its number of rules, its region, its pointer
        (68, 0x00, Err(DbFault::BadCollection(DE))),
        (69, 0xff, Err(DbFault::BadCollection(DE))),
        (70, 0x00, Ok(ONE)),
        (70, 0xff, Err(DbFault::BadRegion(DE, 0xff))),
        (73, 0x00, Err(DbFault::BadRule(DE, 0))),
        (74, 0xff, Ok(ONE)),
    ];
    for (place, byte, wanted) in edits {
        let file = with_byte(DE_FILE, place, byte);
        tells(&rt, rt.alloc(), &file, wanted)?;
    }
    Ok(())
}

// Whatever byte is changed, the file says a database, or it is refused and nothing is written.
#[test]
fn every_changed_byte_has_an_answer(rt: HostRuntime) -> Result<(), Fail> {
    for place in 0..DE_FILE.len() {
        for byte in [0x00, 0xff] {
            let file = with_byte(DE_FILE, place, byte);
            let (status, out) = converted(rt.alloc(), Conversion::Check, &file, 16)?;
            match status {
                Status::Done => assert!(rt; out.written().ends_with(b" rules\n")),
                Status::Refused(InputFault::Database(_)) => assert!(rt; out.written().is_empty()),
                _ => assert!(rt; false, "{byte} at {place} is told as another status"),
            }
        }
    }
    Ok(())
}
