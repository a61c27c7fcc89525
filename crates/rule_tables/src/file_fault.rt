//! What is wrong with the bytes of a database file.

use crate::code::Alpha2;
use thiserror::Error;

/// What is wrong with the bytes of a `regulatory.db` of version 20, in the order in which they are
/// judged: the header, then each entry in the order of the file.
#[derive(Clone, Copy, Debug, PartialEq, Eq, Error)]
pub enum DbFault {
    /// There are so many bytes, fewer than the 8 of the header.
    #[error("{0} bytes")]
    Short(usize),
    /// The magic number is this one.
    #[error("magic number {0}")]
    BadMagic(u32),
    /// The version is this one.
    #[error("version {0}")]
    BadVersion(u32),
    /// These two bytes of an entry are neither two capital letters nor `00`.
    #[error("bytes {0} and {1} are no code")]
    BadAlpha2(u8, u8),
    /// An earlier entry has this code.
    #[error("{0:?} is there twice")]
    CountryTwice(Alpha2),
    /// The entry of this code names no collection: its length is below 3, it or its pointers aren't
    /// all in the file, or it has no rule or more than 128.
    #[error("{0:?} has no collection")]
    BadCollection(Alpha2),
    /// The collection of this code has this region, which is above 3.
    #[error("{0:?} has region {1}")]
    BadRegion(Alpha2, u8),
    /// The pointer of that number of the collection of this code, counted from 0, names no rule: its
    /// length is below 16, it isn't all in the file, or its range or its width isn't valid.
    #[error("rule {1} of {0:?}")]
    BadRule(Alpha2, usize),
    /// The rule of that pointer names no WMM rule: not all its 32 bytes are in the file, or one of
    /// its entries isn't valid.
    #[error("WMM of rule {1} of {0:?}")]
    BadWmm(Alpha2, usize),
}
