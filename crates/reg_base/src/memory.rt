//! Sources and sinks in memory, which fail only where a piece passes a sink's room.

ghost use Rattle.std.specs.Prelude.{◌≡◌, ◌≤◌, ◌<◌, ◌+◌, ◌↔◌, [], Some, length, drop, take, min, IfOk, IsErr, MatchResult, OnErr};
ghost use Rattle.std.specs.Io.{ReadsAtMost};
ghost use Rattle.std.specs.Io.KnownBytes.{ReadConsumes};
ghost use Rattle.reg_base.specs.Causes.{HasCause, counted};
ghost use Rattle.reg_base.specs.Appended.{AppendsAtMost};

use crate::bytes::Bytes;
use crate::errors::Failed;
use crate::sink::Sink;
use crate::source::Source;
use reg_lists::OutOfMemory;
use std::alloc::Global;
use std::marker::Model;

/// A source over bytes in memory, which never fails.
#[derive(Debug, Drop)]
pub struct MemSource {
    bytes: Bytes,
    taken: usize,
    piece: usize,
}

impl Model for MemSource {
    ghost use Rattle.std.specs.Prelude.{◌≤◌, ◌<◌, length, drop};
    ghost use Rattle.reg_base.specs.Memory.{Supply};

    ghost Value = { Supply };

    ghost view = { λ s. record { left = drop s.taken s.bytes; piece = s.piece } };

    ghost invariant = { λ s. (s.taken ≤ length s.bytes) × (0 < s.piece) };
}

impl MemSource {
    /// Gives the bytes, at most `piece` of them for each read.
    pub fn new(bytes: Bytes, piece: usize) -> MemSource
        requires { 0 < piece }
        ensures left { result.left ≡ bytes }
        ensures piece { result.piece ≡ piece }
    {
        MemSource {
            bytes,
            taken: 0,
            piece,
        }
    }
}

/// Moves the next bytes of `rest` into the front of the buffer, at most `piece` of them.
fn give(buf: &mut [u8], rest: &[u8], piece: usize) -> usize
    ensures count { result ≡ min (min (length rest.now) (length buf.old)) piece }
    ensures front { take result buf.new ≡ take result rest.now }
{
    let count = rest.len().min(buf.len()).min(piece);
    buf[..count].copy_from_slice(&rest[..count]);
    count
}

impl Source for MemSource {
    ghost left = { λ s. Some s.left };

    ghost count = { λ _. 0 };

    fn read(&mut self, buf: &mut [u8]) -> Result<usize, Failed>
        requires { 0 < length buf.old }
        ensures bound { ReadsAtMost result buf.new }
        ensures bytes { ReadConsumes (Some self.old.left) (Some self.new.left) result buf.new }
        ensures cause { HasCause 0 0 result }
        ensures within { IfOk result (λ n. n ≤ self.old.piece) }
        ensures piece { self.new.piece ≡ self.old.piece }
    {
        let count = give(buf, &self.bytes.as_slice()[self.taken..], self.piece);
        self.taken += count;
        Ok(count)
    }

    fn faults(&self) -> u64 {
        0
    }
}

/// A sink over memory that it takes at once. Its count of faults is 0 while its room holds.
#[derive(Debug, Drop)]
pub struct MemSink {
    bytes: Vec<u8>,
    room: usize,
    faults: u64,
}

impl Model for MemSink {
    ghost use Rattle.std.specs.Prelude.{◌≤◌, vec_capacity, vec_len};
    ghost use Rattle.reg_base.specs.Memory.{Store};

    ghost Value = { Store };

    ghost view = { λ s. record { written = s.bytes.items; room = s.room; faults = s.faults } };

    ghost invariant = { λ s. (vec_len s.bytes ≤ s.room) × (s.room ≤ vec_capacity s.bytes) };
}

impl MemSink {
    /// No bytes, and room for `room` of them.
    pub fn new(alloc: Global, room: usize) -> Result<MemSink, OutOfMemory>
        ensures empty { IfOk result (λ s. s.written ≡ []) }
        ensures room { IfOk result (λ s. s.room ≡ room) }
        ensures faults { IfOk result (λ s. s.faults ≡ 0) }
    {
        Ok(MemSink {
            bytes: Vec::with_capacity(alloc, room)?,
            room,
            faults: 0,
        })
    }

    /// The bytes that were written.
    pub fn written(&self) -> &[u8]
        ensures { result.now ≡ self.now.written }
    {
        self.bytes.as_slice()
    }
}

impl Sink for MemSink {
    ghost held = { λ s. Some s.written };

    ghost count = { λ s. s.faults };

    fn write_all(&mut self, piece: &[u8]) -> Result<(), Failed>
        ensures bytes { AppendsAtMost (Some self.old.written) (Some self.new.written) result piece.now }
        ensures cause { HasCause self.old.faults self.new.faults result }
        ensures failed { IsErr result ↔ (self.old.room < length self.old.written + length piece.now) }
        ensures nothing { OnErr result (self.new.written ≡ self.old.written) }
        ensures faults { MatchResult result (λ _. self.new.faults ≡ self.old.faults) (λ _. self.new.faults ≡ counted self.old.faults) }
        ensures room { self.new.room ≡ self.old.room }
    {
        if piece.len() > self.room - self.bytes.len()
            || self.bytes.extend_from_slice(piece).is_err()
        {
            self.faults = self.faults.saturating_add(1);
            return Err(Failed);
        }
        Ok(())
    }

    fn faults(&self) -> u64 {
        self.faults
    }
}
