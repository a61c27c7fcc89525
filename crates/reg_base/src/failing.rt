//! Sources and sinks in memory that fail at listed calls, to try what a caller does then.

ghost use Rattle.std.specs.Prelude.{◌≡◌, ◌+◌, ◌<◌, ◌≤◌, ◌↔◌, ◌⊎◌, [], Some, length, Contains, IfOk, IsErr, IsTrue, MatchResult, OnErr};
ghost use Rattle.std.specs.Io.{ReadsAtMost};
ghost use Rattle.std.specs.Io.KnownBytes.{ReadConsumes};
ghost use Rattle.reg_base.specs.Causes.{HasCause, counted};
ghost use Rattle.reg_base.specs.Appended.{AppendsAtMost};

use crate::bytes::Bytes;
use crate::errors::Failed;
use crate::memory::{MemSink, MemSource};
use crate::sink::Sink;
use crate::source::Source;
use reg_lists::OutOfMemory;
use std::alloc::Global;
use std::marker::Model;

/// Which calls fail, and what came of those that were made.
#[derive(Debug, Drop)]
pub(crate) struct CallPlan {
    pub(crate) failing: Vec<u64>,
    pub(crate) calls: u64,
    pub(crate) faults: u64,
}

impl CallPlan {
    pub(crate) fn new(alloc: Global, calls: &[u64]) -> Result<CallPlan, OutOfMemory>
        ensures failing { IfOk result (λ p. p.failing.items ≡ calls.now) }
        ensures calls { IfOk result (λ p. p.calls ≡ 0) }
        ensures faults { IfOk result (λ p. p.faults ≡ 0) }
    {
        Ok(CallPlan {
            failing: Vec::from_slice(alloc, calls)?,
            calls: 0,
            faults: 0,
        })
    }

    /// Counts a call, and answers whether it is to fail.
    pub(crate) fn fails_next(&mut self) -> bool
        ensures fails { IsTrue result ↔ Contains self.old.failing.items (counted self.old.calls) }
        ensures failing { self.new.failing ≡ self.old.failing }
        ensures calls { self.new.calls ≡ counted self.old.calls }
        ensures faults { self.new.faults ≡ self.old.faults }
    {
        self.calls = self.calls.saturating_add(1);
        self.failing.contains(&self.calls)
    }

    /// Counts a failed call.
    pub(crate) fn count_fault(&mut self)
        ensures failing { self.new.failing ≡ self.old.failing }
        ensures calls { self.new.calls ≡ self.old.calls }
        ensures faults { self.new.faults ≡ counted self.old.faults }
        ensures later { self.old.faults ≤ self.new.faults }
    {
        self.faults = self.faults.saturating_add(1);
    }
}

/// A source over bytes in memory that fails at listed calls.
#[derive(Debug, Drop)]
pub struct FailingSource {
    source: MemSource,
    plan: CallPlan,
}

impl Model for FailingSource {
    ghost use Rattle.reg_base.specs.Memory.{FailingSupply};

    ghost Value = { FailingSupply };

    ghost view = { λ s. record {
      left = s.source.left;
      piece = s.source.piece;
      failing = s.plan.failing.items;
      calls = s.plan.calls;
      faults = s.plan.faults;
    } };
}

impl FailingSource {
    /// Gives the bytes, at most `piece` of them for each read, and fails at the calls listed by their
    /// numbers, counted from 1.
    pub fn new(
        alloc: Global,
        bytes: Bytes,
        piece: usize,
        calls: &[u64],
    ) -> Result<FailingSource, OutOfMemory>
        requires { 0 < piece }
        ensures left { IfOk result (λ s. s.left ≡ bytes) }
        ensures piece { IfOk result (λ s. s.piece ≡ piece) }
        ensures failing { IfOk result (λ s. s.failing ≡ calls.now) }
        ensures calls { IfOk result (λ s. s.calls ≡ 0) }
        ensures faults { IfOk result (λ s. s.faults ≡ 0) }
    {
        Ok(FailingSource {
            source: MemSource::new(bytes, piece),
            plan: CallPlan::new(alloc, calls)?,
        })
    }
}

impl Source for FailingSource {
    ghost left = { λ s. Some s.left };

    ghost count = { λ s. s.faults };

    fn read(&mut self, buf: &mut [u8]) -> Result<usize, Failed>
        requires { 0 < length buf.old }
        ensures bound { ReadsAtMost result buf.new }
        ensures bytes { ReadConsumes (Some self.old.left) (Some self.new.left) result buf.new }
        ensures cause { HasCause self.old.faults self.new.faults result }
        ensures fails { IsErr result ↔ Contains self.old.failing (counted self.old.calls) }
        ensures faults { MatchResult result (λ _. self.new.faults ≡ self.old.faults) (λ _. self.new.faults ≡ counted self.old.faults) }
        ensures within { IfOk result (λ n. n ≤ self.old.piece) }
        ensures buffer { OnErr result (buf.new ≡ buf.old) }
        ensures failing { self.new.failing ≡ self.old.failing }
        ensures calls { self.new.calls ≡ counted self.old.calls }
        ensures piece { self.new.piece ≡ self.old.piece }
    {
        if self.plan.fails_next() {
            self.plan.count_fault();
            return Err(Failed);
        }
        self.source.read(buf)
    }

    fn faults(&self) -> u64 {
        self.plan.faults
    }
}

/// A sink over memory that it takes at once, which fails at listed calls too.
#[derive(Debug, Drop)]
pub struct FailingSink {
    sink: MemSink,
    plan: CallPlan,
}

impl Model for FailingSink {
    ghost use Rattle.reg_base.specs.Memory.{FailingStore};

    ghost Value = { FailingStore };

    ghost view = { λ s. record {
      written = s.sink.written;
      room = s.sink.room;
      failing = s.plan.failing.items;
      calls = s.plan.calls;
      faults = s.plan.faults;
    } };
}

impl FailingSink {
    /// No bytes, and room for `room` of them. It fails at the calls listed by their numbers, counted
    /// from 1, and where a piece passes the room.
    pub fn new(alloc: Global, room: usize, calls: &[u64]) -> Result<FailingSink, OutOfMemory>
        ensures empty { IfOk result (λ s. s.written ≡ []) }
        ensures room { IfOk result (λ s. s.room ≡ room) }
        ensures failing { IfOk result (λ s. s.failing ≡ calls.now) }
        ensures calls { IfOk result (λ s. s.calls ≡ 0) }
        ensures faults { IfOk result (λ s. s.faults ≡ 0) }
    {
        Ok(FailingSink {
            sink: MemSink::new(alloc, room)?,
            plan: CallPlan::new(alloc, calls)?,
        })
    }

    /// The bytes that were written.
    pub fn written(&self) -> &[u8]
        ensures { result.now ≡ self.now.written }
    {
        self.sink.written()
    }
}

impl Sink for FailingSink {
    ghost held = { λ s. Some s.written };

    ghost count = { λ s. s.faults };

    fn write_all(&mut self, piece: &[u8]) -> Result<(), Failed>
        ensures bytes { AppendsAtMost (Some self.old.written) (Some self.new.written) result piece.now }
        ensures cause { HasCause self.old.faults self.new.faults result }
        ensures failed { IsErr result ↔ (Contains self.old.failing (counted self.old.calls)
            ⊎ (self.old.room < length self.old.written + length piece.now)) }
        ensures nothing { OnErr result (self.new.written ≡ self.old.written) }
        ensures faults { MatchResult result (λ _. self.new.faults ≡ self.old.faults) (λ _. self.new.faults ≡ counted self.old.faults) }
        ensures failing { self.new.failing ≡ self.old.failing }
        ensures calls { self.new.calls ≡ counted self.old.calls }
        ensures room { self.new.room ≡ self.old.room }
    {
        if self.plan.fails_next() || self.sink.write_all(piece).is_err() {
            self.plan.count_fault();
            return Err(Failed);
        }
        Ok(())
    }

    fn faults(&self) -> u64 {
        self.plan.faults
    }
}
