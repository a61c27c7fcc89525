//! A list of bytes that grows.

use reg_lists::Seq;

/// A list of bytes.
pub type Bytes = Seq<u8>;
