//! Cuts a script that comes in pieces into its lines.

ghost use Rattle.std.specs.Prelude.{◌≡◌, ◌≢◌, ◌==◌, ◌+◌, ◌<◌, ◌≤◌, ◌⊎◌, ℕ, [], ◌++◌, IfOk, false, length, slice_index, take};
ghost use Rattle.reg_base.specs.declared.limits.TheConstants.{MOST_LINE_BYTES};
ghost use Rattle.iw_commands.specs.Cutting.{IsCut, opened, with_byte};

use memchr::memchr;
use reg_base::MOST_LINE_BYTES;
use reg_lists::OutOfMemory;
use std::alloc::Global;
use std::marker::Model;

/// A line that was cut off.
#[derive(Clone, Copy)]
pub enum Cut<'a> {
    /// All of its bytes, without the newline.
    Whole(&'a [u8]),
    /// It has more than 4,096 bytes.
    TooLong,
}

/// Takes the bytes of a script one by one, and keeps those of the line that is open, at most 4,096.
#[derive(Drop)]
pub struct LineCutter {
    bytes: Vec<u8>,
    too_long: bool,
    ended: bool,
}

impl Model for LineCutter {
    ghost use Rattle.std.specs.Prelude.{◌≤◌, vec_capacity, vec_len};
    ghost use Rattle.iw_commands.specs.Cutting.{OpenLine};

    ghost Value = { OpenLine };

    ghost view = { λ c. record { bytes = c.bytes.items; too_long = c.too_long; ended = c.ended } };

    ghost invariant = { λ c. (vec_len c.bytes ≤ 4096) × (4096 ≤ vec_capacity c.bytes) };
}

/// How many bytes stand before the first newline, or all where there is none.
fn before_newline(bytes: &[u8]) -> usize
    ensures within { result ≤ length bytes.now }
    ensures before { (k : ℕ) → k < result → slice_index bytes.now k ≢ 10 }
    ensures ends { result < length bytes.now → slice_index bytes.now result ≡ 10 }
{
    match memchr(b'\n', bytes) {
        Some(place) => place,
        None => bytes.len(),
    }
}

impl LineCutter {
    /// An empty line, and room for the longest one.
    pub fn new(alloc: Global) -> Result<LineCutter, OutOfMemory>
        ensures open { IfOk result (λ cutter. cutter ≡ opened) }
    {
        Ok(LineCutter {
            bytes: Vec::with_capacity(alloc, MOST_LINE_BYTES)?,
            too_long: false,
            ended: false,
        })
    }

    /// Takes the next byte: true exactly for a newline, which ends the line. Another byte is kept, or,
    /// where 4,096 are kept already, marks the line as too long.
    pub fn push(&mut self, b: u8) -> bool
        requires open { self.old.ended ≡ false }
        ensures newline { result ≡ (b == 10) }
        ensures pushed { self.new ≡ with_byte b self.old }
    {
        if b == b'\n' {
            self.ended = true;
            return true;
        }
        if self.bytes.len() >= MOST_LINE_BYTES || self.bytes.push(b).is_err() {
            self.too_long = true;
        }
        false
    }

    /// Keeps the first of these bytes, as many as stand before a newline and as there is room for, and
    /// tells how many they are.
    pub fn append(&mut self, bytes: &[u8]) -> usize
        ensures within { result ≤ length bytes.now }
        ensures room { length self.old.bytes + result ≤ MOST_LINE_BYTES }
        ensures before { (k : ℕ) → k < result → slice_index bytes.now k ≢ 10 }
        ensures ends { result < length bytes.now → (slice_index bytes.now result ≡ 10) ⊎ (length self.old.bytes + result ≡ MOST_LINE_BYTES) }
        ensures kept { self.new ≡ record { bytes = self.old.bytes ++ take result bytes.now; too_long = self.old.too_long; ended = self.old.ended } }
    {
        let room = MOST_LINE_BYTES - self.bytes.len();
        let count = before_newline(&bytes[..room.min(bytes.len())]);
        if self.bytes.extend_from_slice(&bytes[..count]).is_err() {
            unreachable!();
        }
        count
    }

    /// The line so far: `TooLong` exactly where it was marked so.
    pub fn line(&self) -> Cut<'_>
        ensures cut { IsCut self.now result }
        ensures few { length self.now.bytes ≤ MOST_LINE_BYTES }
    {
        if self.too_long {
            return Cut::TooLong;
        }
        Cut::Whole(self.bytes.as_slice())
    }

    /// Opens an empty line.
    pub fn clear(&mut self)
        ensures open { self.new ≡ opened }
    {
        self.bytes.clear();
        self.too_long = false;
        self.ended = false;
    }
}
