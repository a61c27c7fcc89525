//! Files written out by hand from the format, and what is wrong with others.

use crate::samples::{etsi, rule};
use db_reader::{DbFault, ReadFault, read_db};
use freq_range::{Rule, RuleFlags};
use rule_tables::{Alpha2, Region};
use std::alloc::Global;
use std::test::Fail;

const US: Alpha2 = Alpha2 { a: b'U', b: b'S' };

/// The header, the entry of US with its collection at word 8, four zero bytes, the rule at word 4,
/// and the collection with its rule at word 4, filled up by two zero bytes.
const US_FILE: [u8; 40] = [
    0x52, 0x47, 0x44, 0x42, 0x00, 0x00, 0x00, 0x14, //
    0x55, 0x53, 0x00, 0x08, //
    0x00, 0x00, 0x00, 0x00, //
    0x10, 0x00, 0x0b, 0xb8, 0x00, 0x24, 0x9f, 0x00, //
    0x00, 0x25, 0xb8, 0x40, 0x00, 0x00, 0x9c, 0x40, //
    0x03, 0x01, 0x01, 0x00, 0x00, 0x04, 0x00, 0x00,
];

/// The same with a check time of 60 seconds, and the collection at word 9.
const CHECK_TIME_FILE: [u8; 44] = [
    0x52, 0x47, 0x44, 0x42, 0x00, 0x00, 0x00, 0x14, //
    0x55, 0x53, 0x00, 0x09, //
    0x00, 0x00, 0x00, 0x00, //
    0x12, 0x00, 0x0b, 0xb8, 0x00, 0x24, 0x9f, 0x00, //
    0x00, 0x25, 0xb8, 0x40, 0x00, 0x00, 0x9c, 0x40, 0x00, 0x3c, 0x00, 0x00, //
    0x03, 0x01, 0x01, 0x00, 0x00, 0x04, 0x00, 0x00,
];

/// The entry of US twice, with the collection at word 9 and the rule at word 5.
const TWICE_FILE: [u8; 44] = [
    0x52, 0x47, 0x44, 0x42, 0x00, 0x00, 0x00, 0x14, //
    0x55, 0x53, 0x00, 0x09, 0x55, 0x53, 0x00, 0x09, //
    0x00, 0x00, 0x00, 0x00, //
    0x10, 0x00, 0x0b, 0xb8, 0x00, 0x24, 0x9f, 0x00, //
    0x00, 0x25, 0xb8, 0x40, 0x00, 0x00, 0x9c, 0x40, //
    0x03, 0x01, 0x01, 0x00, 0x00, 0x05, 0x00, 0x00,
];

/// The entry of US with its collection at word 17, the WMM rule at word 4, the rule with a check
/// time and this WMM rule at word 12, and the collection. It has a length of 5 and so its pointers
/// from byte 6 on: the rule, and the rule again.
const WMM_FILE: [u8; 78] = [
    0x52, 0x47, 0x44, 0x42, 0x00, 0x00, 0x00, 0x14, //
    0x55, 0x53, 0x00, 0x11, //
    0x00, 0x00, 0x00, 0x00, //
    0x23, 0x02, 0x00, 0x02, 0x34, 0x02, 0x00, 0x04, //
    0x4a, 0x03, 0x00, 0x06, 0x4a, 0x07, 0x00, 0x06, //
    0x23, 0x01, 0x00, 0x02, 0x34, 0x01, 0x00, 0x04, //
    0x46, 0x03, 0x00, 0x06, 0x4a, 0x07, 0x00, 0x06, //
    0x14, 0xf2, 0x08, 0xfd, 0x00, 0x4e, 0x95, 0x30, //
    0x00, 0x50, 0x1b, 0xd0, 0x00, 0x01, 0x38, 0x80, 0x00, 0x3c, 0x00, 0x04, //
    0x05, 0x02, 0x02, 0xff, 0xff, 0xff, 0x00, 0x0c, 0x00, 0x0c,
];

/// A rule from 2400 to 2472 MHz.
const US_RULE: Rule = Rule {
    start_khz: 2_400_000,
    end_khz: 2_472_000,
    max_bw_khz: 40_000,
    flags: RuleFlags::NONE,
    eirp_mbm: 3000,
    cac_s: 0,
    wmm: None,
};

/// What the first domain of a file says: its code, its region, and the first of its rules with
/// their number.
fn first_domain(
    alloc: Global,
    bytes: &[u8],
) -> Result<Option<(Alpha2, Region, Rule, usize)>, ReadFault> {
    let db = read_db(alloc, bytes)?;
    Ok(match db.domain(0) {
        Some(domain) => match domain.rules.get(0) {
            Some(rule) => Some((domain.alpha2, domain.region, *rule, domain.rules.len())),
            None => None,
        },
        None => None,
    })
}

/// The fault of a file, or `None` where it says a database.
fn fault(alloc: Global, bytes: &[u8]) -> Option<ReadFault> {
    read_db(alloc, bytes).err()
}

/// The file with another byte at that place.
fn with_byte(file: [u8; 40], place: usize, byte: u8) -> [u8; 40] {
    let mut edited = file;
    if let Some(old) = edited.get_mut(place) {
        *old = byte;
    }
    edited
}

#[test]
fn files_say_their_domains(rt: HostRuntime) -> Result<(), Fail> {
    let checked = Rule {
        cac_s: 60,
        ..US_RULE
    };
    let files: [(&str, &[u8], Region, Rule); 5] = [
        ("one rule", &US_FILE, Region::Fcc, US_RULE),
        // only the bytes that fill up the collection are lost
        ("39 bytes", &US_FILE[..39], Region::Fcc, US_RULE),
        ("38 bytes", &US_FILE[..38], Region::Fcc, US_RULE),
        ("check time", &CHECK_TIME_FILE, Region::Fcc, checked),
        ("WMM rule", &WMM_FILE, Region::Etsi, rule(60, Some(etsi()))),
    ];
    for (name, bytes, region, rule) in files {
        let said = first_domain(rt.alloc(), bytes)?;
        assert!(rt; said == Some((US, region, rule, 1)), "{name}");
    }
    Ok(())
}

#[test]
fn a_header_alone_says_no_domain(rt: HostRuntime) -> Result<(), Fail> {
    for length in [8, 9, 11] {
        let db = read_db(rt.alloc(), &US_FILE[..length])?;
        assert!(rt; db.len() == 0, "for {length} bytes");
    }
    Ok(())
}

#[test]
fn the_first_fault_of_a_file_is_told(rt: HostRuntime) -> Result<(), Fail> {
    let files: [(&str, &[u8], DbFault); 8] = [
        ("7 bytes", &US_FILE[..7], DbFault::Short(7)),
        ("version 21", b"RGDB\0\0\0\x15", DbFault::BadVersion(21)),
        (
            "both wrong",
            b"RGDC\0\0\0\x15",
            DbFault::BadMagic(0x5247_4443),
        ),
        (
            "past the end",
            b"RGDB\0\0\0\x14US\0\x09",
            DbFault::BadCollection(US),
        ),
        (
            "in the entry",
            b"RGDB\0\0\0\x14US\0\x02",
            DbFault::BadCollection(US),
        ),
        (
            "small letters",
            b"RGDB\0\0\0\x14us\0\x02",
            DbFault::BadAlpha2(0x75, 0x73),
        ),
        ("twice", &TWICE_FILE, DbFault::CountryTwice(US)),
        ("37 bytes", &US_FILE[..37], DbFault::BadCollection(US)),
    ];
    for (name, bytes, wanted) in files {
        let found = fault(rt.alloc(), bytes);
        assert!(rt; found == Some(ReadFault::Bad(wanted)), "{name}");
    }
    Ok(())
}

#[test]
fn one_byte_makes_a_fault(rt: HostRuntime) -> Result<(), Fail> {
    let edits = [
        // the collection's length, its number of rules, its region, its pointer
        (32, 0x02, DbFault::BadCollection(US)),
        (33, 0x00, DbFault::BadCollection(US)),
        (33, 0x81, DbFault::BadCollection(US)),
        (34, 0x04, DbFault::BadRegion(US, 4)),
        (37, 0x0a, DbFault::BadRule(US, 0)),
        // the rule's length, its start and its width
        (16, 0x0f, DbFault::BadRule(US, 0)),
        (16, 0x19, DbFault::BadRule(US, 0)),
        (16, 0x14, DbFault::BadWmm(US, 0)),
        (21, 0x26, DbFault::BadRule(US, 0)),
        (29, 0x02, DbFault::BadRule(US, 0)),
    ];
    for (place, byte, wanted) in edits {
        let found = fault(rt.alloc(), &with_byte(US_FILE, place, byte));
        assert!(rt;
            found == Some(ReadFault::Bad(wanted)),
            "for {byte} at {place}"
        );
    }
    Ok(())
}
