//! The first 16 bytes of messages.

use nl_attrs::{Attr, AttrList, Msg, Payload, head_in, head_of, put_message};
use reg_base::Bytes;
use std::test::Fail;

/// The interface `wlan0` is stopped, and the Error and Done messages that answer.
const MESSAGES: [u8; 88] = [
    0x20, 0, 0, 0, 0x20, 0, 5, 0, 9, 0, 0, 0, 3, 0, 0, 0, //
    16, 0, 0, 0, 10, 0, 4, 0, 0x77, 0x6c, 0x61, 0x6e, 0x30, 0, 0, 0, //
    0x24, 0, 0, 0, 2, 0, 0, 0, 9, 0, 0, 0, 3, 0, 0, 0, 0xea, 0xff, 0xff, 0xff, //
    0x20, 0, 0, 0, 0x20, 0, 5, 0, 9, 0, 0, 0, 3, 0, 0, 0, //
    0x14, 0, 0, 0, 3, 0, 2, 0, 9, 0, 0, 0, 3, 0, 0, 0, 0, 0, 0, 0,
];

#[test]
fn heads_of_messages(rt: HostRuntime) -> Result<(), Fail> {
    let alloc = rt.alloc();
    let mut attrs = AttrList::new(alloc);
    attrs.push(Attr::new(alloc, 4, Payload::Text(b"wlan0"))?)?;
    let stop = Msg::Generic {
        family: 32,
        flags: 5,
        seq: 9,
        pid: 3,
        cmd: 16,
        version: 0,
        attrs,
    };
    let mut out = Bytes::new(alloc);
    put_message(&mut out, &stop)?;
    let head = head_of(&stop);
    assert!(rt; head.as_slice() == &MESSAGES[..16]);
    let error = Msg::Error {
        flags: 0,
        seq: 9,
        pid: 3,
        code: -22,
        head,
    };
    put_message(&mut out, &error)?;
    assert!(rt; head_of(&error).as_slice() == &MESSAGES[32..48]);
    let done = Msg::Done {
        flags: 2,
        seq: 9,
        pid: 3,
        code: 0,
    };
    put_message(&mut out, &done)?;
    assert!(rt; head_of(&done).as_slice() == &MESSAGES[68..84]);
    assert!(rt; out.as_slice() == MESSAGES.as_slice());
    assert!(rt; head_in(&MESSAGES[..15]).is_none());
    match head_in(&MESSAGES[..17]) {
        Some(head) => assert!(rt; head.as_slice() == &MESSAGES[..16]),
        None => assert!(rt; false),
    }
    Ok(())
}
