//! Texts and their files.

use crate::calls::{converted, give};
use crate::samples::{EMPTY_FILE, TWO, TWO_FILE, US, US_FILE};
use db_commands::{Conversion, InputFault, Status};
use std::alloc::Global;
use std::test::Fail;

#[test]
fn texts_give_their_files(rt: HostRuntime) -> Result<(), Fail> {
    let rows: [(&[u8], &[u8]); 7] = [
        (US, &US_FILE),
        (TWO, &TWO_FILE),
        (b"", &EMPTY_FILE),
        (b"# nothing\r\n\n \t\n", &EMPTY_FILE),
        // no newline at the end, no blanks, leading zeros
        (b"country US:DFS-FCC\n(02400-2472@40),(030)", &US_FILE),
        // blanks within words, comments, carriage returns
        (
            b"coun try U S : DFS - FCC # states\r\n( 24 00 - 2472 @ 40 ) , ( 30 ) # one\r\n",
            &US_FILE,
        ),
        // empty lines and comments end no block
        (
            b"\ncountry US: DFS-FCC\n\n# one\n(2400 - 2472 @ 40), (30)",
            &US_FILE,
        ),
    ];
    give(&rt, rt.alloc(), Conversion::Compile, &rows)
}

#[test]
fn pieces_of_any_size_give_the_same(rt: HostRuntime) -> Result<(), Fail> {
    for piece in 1..50 {
        let (status, out) = converted(rt.alloc(), Conversion::Compile, US, piece)?;
        assert!(rt; status == Status::Done, "in pieces of {piece}");
        assert!(rt; out.written() == US_FILE.as_slice(), "in pieces of {piece}");
    }
    Ok(())
}

// The flags stand in the second byte of the rule, which is at word 4.
#[test]
fn flags_stand_in_their_byte(rt: HostRuntime) -> Result<(), Fail> {
    for (flags, byte) in [
        ("", 0x00),
        (", NO-OFDM", 0x01),
        (", NO-OUTDOOR", 0x02),
        (", DFS", 0x04),
        (", NO-IR", 0x08),
        (", AUTO-BW", 0x10),
        (", DFS, DFS", 0x04),
        (", AUTO-BW, NO-IR, DFS, NO-OUTDOOR, NO-OFDM", 0x1f),
    ] {
        let text = format!(in rt.alloc(); "country US:\n(2400 - 2472 @ 40), (30){flags}\n")?;
        let (status, out) = converted(rt.alloc(), Conversion::Compile, text.as_bytes(), 16)?;
        assert!(rt; status == Status::Done, "for {flags}");
        assert!(rt; out.written().get(17) == Some(&byte), "for {flags}");
    }
    Ok(())
}

/// The code of country number `k`, of which there are 26 times 26.
fn code(k: u8) -> [char; 2] {
    [char::from(b'A' + k / 26 % 26), char::from(b'A' + k % 26)]
}

/// 128 countries with 128 rules each, all of them different.
fn too_many_rules(alloc: Global) -> Result<String, Fail> {
    let mut text = String::new(alloc);
    let mut start = 0u32;
    for k in 0..128u8 {
        let [a, b] = code(k);
        let header = format!(in alloc; "country {a}{b}:\n")?;
        text.push_str(header.as_str())?;
        for _ in 0..128 {
            start = start.saturating_add(1);
            let rule = format!(in alloc; "({start} - 20000 @ 20), (20)\n")?;
            text.push_str(rule.as_str())?;
        }
    }
    Ok(text)
}

// The collections begin behind 131 words and 16,384 rules of 4 words, and have 65 words each.
#[test]
fn a_file_has_at_most_65535_words_before_its_last_collection(rt: HostRuntime) -> Result<(), Fail> {
    let text = too_many_rules(rt.alloc())?;
    let (status, out) = converted(rt.alloc(), Conversion::Compile, text.as_bytes(), 4096)?;
    assert!(rt; status == Status::Refused(InputFault::Layout { words: 73_922 }));
    assert!(rt; out.written().is_empty());
    Ok(())
}
