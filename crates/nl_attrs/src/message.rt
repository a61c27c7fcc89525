//! One message.

use crate::lists::AttrList;

/// A message (`struct nlmsghdr` with what follows it).
#[derive(Debug, Drop)]
pub enum Msg {
    /// A command of a family, or an answer to one (`struct genlmsghdr`).
    Generic {
        /// At least 16.
        family: u16,
        flags: u16,
        seq: u32,
        pid: u32,
        cmd: u8,
        version: u8,
        attrs: AttrList,
    },
    /// How a command ended (`struct nlmsgerr`).
    Error {
        flags: u16,
        seq: u32,
        pid: u32,
        /// 0, or a negative error number.
        code: i32,
        /// The first 16 bytes of the message that is answered.
        head: [u8; 16],
    },
    /// The end of a dump.
    Done {
        flags: u16,
        seq: u32,
        pid: u32,
        code: i32,
    },
}

/// The bytes of a message's head.
pub const HEAD: usize = 16;

/// The bytes of a family's message before its attributes, the least that a message has.
pub const GENERIC_BYTES: u32 = 20;

/// The bytes of an Error message.
pub const ERROR_BYTES: u32 = 36;

/// The bytes of a Done message.
pub const DONE_BYTES: u32 = 20;

/// The greatest message, in bytes.
pub const MOST_BYTES: u32 = 65_536;

/// The type of an Error message (`NLMSG_ERROR`).
pub const ERROR: u16 = 2;

/// The type of a Done message (`NLMSG_DONE`).
pub const DONE: u16 = 3;

/// The least family: a type below is another or none.
pub const LEAST_FAMILY: u16 = 16;

/// What stands before the body of each message.
#[derive(Clone, Copy)]
pub struct Head {
    /// The bytes of the whole message.
    pub length: u32,
    /// The type: `ERROR`, `DONE` or a family.
    pub kind: u16,
    pub flags: u16,
    pub seq: u32,
    pub pid: u32,
}
