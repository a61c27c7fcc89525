//! Attributes written out by hand from the format: lists, walks, payloads of each kind, nested ones.

ghost use Rattle.std.specs.Prelude.{◌<◌, ◌≤◌, length, OnOk};

use nl_attrs::{
    Attr, AttrList, AttrsFault, Breach, EncodeFault, Payload, Walk, attrs_bytes, attrs_of,
    begin_nested, end_nested, i32_of, put_attr, put_plain, text_of, u8_of, u16_of, u32_of, u64_of,
};
use reg_base::Bytes;
use std::alloc::Global;
use std::process::Abort;
use std::test::Fail;

/// Two attributes, the first of them nested.
const TWO: [u8; 16] = [9, 0, 1, 0x80, 5, 0, 2, 0, 7, 0, 0, 0, 4, 0, 0xff, 0x3f];

/// Lists with a breach, and its place.
const BREACHES: [(&[u8], u64); 6] = [
    // bit 14 of the kind, a length of 3, and one past the end with its padding
    (&[4, 0, 0, 0x40], 0),
    (&[4, 0, 1, 0, 3, 0, 2, 0], 4),
    (&[4, 0, 1, 0, 5, 0, 2, 0, 7, 0, 0], 4),
    // padding that isn't zero, and headers that aren't whole
    (&[5, 0, 2, 0, 7, 0, 1, 0], 0),
    (&[5, 0, 2, 0, 7, 0, 0, 0, 4, 0, 1], 8),
    (&[0], 0),
];

/// Lists are read and written.
fn lists(rt: &impl Abort, alloc: Global) -> Result<(), Fail> {
    let list = attrs_of(alloc, &TWO)?;
    assert!(rt; list.len() == 2);
    assert!(rt; attrs_bytes(alloc, &list)?.as_slice() == TWO.as_slice());
    if let Some(attr) = list.get(0) {
        assert!(rt; (attr.kind, attr.nested) == (1, true));
        assert!(rt; attr.payload.as_slice() == [5, 0, 2, 0, 7].as_slice());
        assert!(rt; attrs_of(alloc, attr.payload.as_slice()).err() == Some(AttrsFault::BadAttr(0)));
    }
    for (payload, place) in BREACHES {
        assert!(rt; attrs_of(alloc, payload).err() == Some(AttrsFault::BadAttr(place)));
    }
    Ok(())
}

/// A payload of each kind, under kinds 15, 2, 3, 1, 16, 33 and 10.
const PLAIN: [u8; 60] = [
    5, 0, 15, 0, 1, 0, 0, 0, //
    6, 0, 2, 0, 0x34, 0x12, 0, 0, //
    8, 0, 3, 0, 0x78, 0x56, 0x34, 0x12, //
    12, 0, 1, 0, 8, 7, 6, 5, 4, 3, 2, 1, //
    8, 0, 16, 0, 0xea, 0xff, 0xff, 0xff, //
    7, 0, 33, 0, 0x55, 0x53, 0, 0, //
    6, 0, 10, 0, 7, 6, 0, 0,
];

/// The kinds and the payloads.
const PAYLOADS: [(u16, Payload<'_>); 7] = [
    (15, Payload::U8(1)),
    (2, Payload::U16(0x1234)),
    (3, Payload::U32(0x1234_5678)),
    (1, Payload::U64(0x0102_0304_0506_0708)),
    (16, Payload::I32(-22)),
    (33, Payload::Text(b"US")),
    (10, Payload::Raw(&[7, 6])),
];

/// The payload of the next attribute, which has that kind.
fn payload_under<'a>(walk: &mut Walk<'a>, kind: u16) -> Option<&'a [u8]> {
    let attr = walk.next().ok()??;
    if attr.kind == kind && !attr.nested {
        Some(attr.payload)
    } else {
        None
    }
}

/// Whether the bytes are read as the payload.
fn says(bytes: &[u8], payload: &Payload<'_>) -> bool {
    match payload {
        Payload::U8(number) => u8_of(bytes) == Some(*number),
        Payload::U16(number) => u16_of(bytes) == Some(*number),
        Payload::U32(number) => u32_of(bytes) == Some(*number),
        Payload::U64(number) => u64_of(bytes) == Some(*number),
        Payload::I32(number) => i32_of(bytes) == Some(*number),
        Payload::Text(text) => text_of(bytes) == Some(*text),
        Payload::Raw(raw) => bytes == *raw,
    }
}

/// Payloads of each kind are written and read.
fn payloads(rt: &impl Abort, alloc: Global) -> Result<(), Fail> {
    let mut out = Bytes::new(alloc);
    let mut walk = Walk::new(&PLAIN);
    for (kind, payload) in PAYLOADS {
        assert!(rt; kind < 16384);
        put_plain(&mut out, kind, payload)?;
        let read = payload_under(&mut walk, kind);
        assert!(rt; says(read.unwrap_or(&[]), &payload), "of kind {kind}");
    }
    assert!(rt; out.as_slice() == PLAIN.as_slice());
    assert!(rt; matches!(walk.next(), Ok(None)));
    assert!(rt; matches!(walk.next(), Ok(None)));
    Ok(())
}

/// Payloads of a kind that aren't of its length, or have a zero byte within the text.
const OTHERS: [(Payload<'_>, &[u8]); 7] = [
    (Payload::U8(0), &[0; 2]),
    (Payload::U16(0), &[0; 1]),
    (Payload::U32(0), &[0; 5]),
    (Payload::U64(0), &[0; 9]),
    (Payload::I32(0), &[0; 3]),
    (Payload::Text(b""), b"US\0\0"),
    (Payload::Text(b""), b"U\0S"),
];

/// Whether the bytes are read as no payload of its kind.
fn is_none(kind: &Payload<'_>, bytes: &[u8]) -> bool {
    match kind {
        Payload::U8(_) => u8_of(bytes).is_none(),
        Payload::U16(_) => u16_of(bytes).is_none(),
        Payload::U32(_) => u32_of(bytes).is_none(),
        Payload::U64(_) => u64_of(bytes).is_none(),
        Payload::I32(_) => i32_of(bytes).is_none(),
        Payload::Text(_) => text_of(bytes).is_none(),
        Payload::Raw(_) => false,
    }
}

/// Texts, as they are and with a zero byte at the end.
const TEXTS: [(&[u8], &[u8]); 3] = [(b"US", b"US"), (b"", b""), (b"\0", b"")];

/// Payloads of another length are none.
fn other_lengths(rt: &impl Abort) {
    for (row, (kind, bytes)) in OTHERS.iter().enumerate() {
        assert!(rt; is_none(kind, bytes), "row {row}");
    }
    for (row, (bytes, text)) in TEXTS.iter().enumerate() {
        assert!(rt; text_of(bytes) == Some(*text), "text {row}");
    }
}

/// A walk stops at a breach.
fn a_walk_stops_at_a_breach(rt: &impl Abort, alloc: Global) -> Result<(), Fail> {
    // The second attribute ends past the payload.
    let mut walk = Walk::new(&[5, 0, 2, 0x80, 7, 0, 0, 0, 9, 0, 1, 0, 0, 0, 0, 0]);
    match walk.next() {
        Ok(Some(attr)) => {
            assert!(rt; (attr.kind, attr.nested) == (2, true));
            let own = attr.copied(alloc)?;
            assert!(rt; (own.kind, own.nested) == (2, true));
            assert!(rt; own.payload.as_slice() == [7].as_slice());
        }
        Ok(None) => assert!(rt; false),
        Err(_breach) => assert!(rt; false),
    }
    assert!(rt; walk.next().err() == Some(Breach { place: 8 }));
    assert!(rt; walk.next().err() == Some(Breach { place: 8 }));
    Ok(())
}

/// Two rules, each with its place as kind, under kind 34.
const RULES: [u8; 28] = [
    28, 0, 34, 0x80, //
    12, 0, 0, 0x80, 8, 0, 1, 0, 8, 0, 0, 0, //
    12, 0, 1, 0x80, 8, 0, 2, 0, 16, 39, 0, 0,
];

/// Writes a rule with one number.
fn put_rule(out: &mut Bytes, place: u16, kind: u16, number: u32) -> Result<(), Fail>
    requires place { place < 16384 }
    requires kind { kind < 16384 }
    ensures { OnOk result (length out.old ≤ length out.new) }
{
    let rule = begin_nested(out, place)?;
    put_plain(out, kind, Payload::U32(number))?;
    end_nested(out, rule)?;
    Ok(())
}

/// Attributes are nested.
fn nested_attributes(rt: &impl Abort, alloc: Global) -> Result<(), Fail> {
    let mut out = Bytes::new(alloc);
    let rules = begin_nested(&mut out, 34)?;
    put_rule(&mut out, 0, 1, 8)?;
    put_rule(&mut out, 1, 2, 10_000)?;
    end_nested(&mut out, rules)?;
    assert!(rt; out.as_slice() == RULES.as_slice());
    Ok(())
}

/// So many zero bytes.
fn zeros(alloc: Global, count: usize) -> Result<Bytes, Fail> {
    let mut bytes = Bytes::new(alloc);
    for _ in 0..count {
        bytes.push(0)?;
    }
    Ok(bytes)
}

/// Payloads have at most 65531 bytes.
fn payloads_that_are_too_long(rt: &impl Abort, alloc: Global) -> Result<(), Fail> {
    let fault = Some(EncodeFault::Overlong(65_532));
    let mut attr = Attr {
        kind: 1,
        nested: false,
        payload: zeros(alloc, 65_531)?,
    };
    let mut out = Bytes::new(alloc);
    put_attr(&mut out, &attr)?;
    assert!(rt; out.len() == 65_536);
    attr.payload.push(0)?;
    assert!(rt; put_attr(&mut out, &attr).err() == fault);
    assert!(rt; put_plain(&mut out, 1, Payload::Raw(attr.payload.as_slice())).err() == fault);
    assert!(rt; out.len() == 65_536);
    Ok(())
}

/// A nested payload has at most 65531 bytes.
fn a_nested_payload_that_is_too_long(rt: &impl Abort, alloc: Global) -> Result<(), Fail> {
    let long = zeros(alloc, 65_532)?;
    let mut out = Bytes::new(alloc);
    let nested = begin_nested(&mut out, 1)?;
    out.append(long.as_slice())?;
    assert!(rt; end_nested(&mut out, nested).err() == Some(EncodeFault::Overlong(65_532)));
    assert!(rt; out.len() == 65_536);
    Ok(())
}

#[test]
fn attributes(rt: HostRuntime) -> Result<(), Fail> {
    let alloc = rt.alloc();
    lists(&rt, alloc)?;
    payloads(&rt, alloc)?;
    other_lengths(&rt);
    a_walk_stops_at_a_breach(&rt, alloc)?;
    nested_attributes(&rt, alloc)?;
    payloads_that_are_too_long(&rt, alloc)?;
    a_nested_payload_that_is_too_long(&rt, alloc)
}
