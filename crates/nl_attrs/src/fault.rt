//! What can be wrong with bytes and with messages.

ghost use Rattle.std.specs.Prelude.{◌≡◌};
ghost use Rattle.nl_attrs.specs.declared.fault.AttrsFault.TheVariants as attrs_faults;
ghost use Rattle.nl_attrs.specs.declared.fault.EncodeFault.TheVariants as encode_faults;
ghost use Rattle.nl_attrs.specs.declared.fault.NextFault.TheVariants as next_faults;

use reg_lists::OutOfMemory;

/// What is wrong with a stream of messages.
#[derive(Clone, Copy, Debug, PartialEq, Eq)]
pub enum AttrFault {
    /// The stream ends after so many bytes of a message.
    Truncated(u64),
    /// A length below 20, or no multiple of 4, or not the one length of the message's type.
    BadLength(u32),
    /// A length above 65,536.
    Overlong(u32),
    /// A type that is neither 2, 3 nor a family, which is at least 16.
    BadType(u16),
    /// The place in the message, in bytes, of a reserved number that isn't zero or of the first
    /// broken attribute.
    BadAttr(u64),
}

/// Why a payload isn't a list of attributes.
#[derive(Clone, Copy, Debug, PartialEq, Eq)]
pub enum AttrsFault {
    /// The place in the payload, in bytes, of the first broken attribute.
    BadAttr(u64),
    OutOfMemory,
}

/// The first bytes of a payload that are no attribute.
#[derive(Clone, Copy, Debug, PartialEq, Eq)]
pub struct Breach {
    /// Where they stand in the payload, in bytes.
    pub place: u64,
}

/// Why a message or a list of attributes can't be written.
#[derive(Clone, Copy, Debug, PartialEq, Eq)]
pub enum EncodeFault {
    /// The first payload above 65,531 bytes has so many bytes, or the message, of more than
    /// 65,536, would have. No message is counted past 2^64 - 1 bytes.
    Overlong(u64),
    OutOfMemory,
}

/// Why there is no next message.
#[derive(Clone, Copy, Debug, PartialEq, Eq)]
pub enum NextFault {
    /// The first fault of the stream.
    Bad(AttrFault),
    OutOfMemory,
}

impl From<OutOfMemory> for AttrsFault {
    ghost from_gives = { λ _ e. e ≡ attrs_faults.OutOfMemory };

    fn from(_error: OutOfMemory) -> AttrsFault {
        AttrsFault::OutOfMemory
    }
}

impl From<Breach> for AttrsFault {
    ghost from_gives = { λ breach e. e ≡ attrs_faults.BadAttr breach.place };

    fn from(breach: Breach) -> AttrsFault {
        AttrsFault::BadAttr(breach.place)
    }
}

impl From<OutOfMemory> for EncodeFault {
    ghost from_gives = { λ _ e. e ≡ encode_faults.OutOfMemory };

    fn from(_error: OutOfMemory) -> EncodeFault {
        EncodeFault::OutOfMemory
    }
}

impl From<OutOfMemory> for NextFault {
    ghost from_gives = { λ _ e. e ≡ next_faults.OutOfMemory };

    fn from(_error: OutOfMemory) -> NextFault {
        NextFault::OutOfMemory
    }
}
