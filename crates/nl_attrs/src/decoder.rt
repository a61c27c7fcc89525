//! Takes messages from a stream of bytes, in whatever pieces it comes.

ghost use Rattle.std.specs.Prelude.{◌≡◌, ℕ, ◌+◌, ◌^◌, ◌≤◌, ◌++◌, List, [], length, drop, Ok, Err, Some, None, IfOk, IfErr, IfSome, IfNone, IsSome, IsOk, OnOk, OnErr};
ghost use Rattle.nl_attrs.specs.declared.fault.AttrFault.{AttrFault};
ghost use Rattle.nl_attrs.specs.declared.fault.NextFault.TheVariants.{Bad};
ghost use Rattle.nl_attrs.specs.declared.message.Msg.{Msg};
ghost use Rattle.nl_attrs.specs.Messages.{all_spelled};
ghost use Rattle.nl_attrs.specs.Streams.{TakesMsg, Waits, IsNextFault, IsLeft, EndsStream, HasGiven, GivesNext, nothing_fed, with_piece};

use crate::fault::{AttrFault, NextFault};
use crate::message::Msg;
use crate::message_reader::message_at;
use reg_lists::OutOfMemory;
use std::alloc::Global;
use std::marker::Model;

/// Takes messages from the front of the bytes that it is fed.
#[derive(Debug, Drop)]
pub struct Decoder {
    bytes: Vec<u8>,
    // What stands before is taken.
    start: usize,
    taken: u64,
    fault: Option<AttrFault>,
}

impl Model for Decoder {
    ghost use Rattle.std.specs.Prelude.{◌+◌, ◌-◌, ◌^◌, ◌≤◌, length, drop};
    ghost use Rattle.nl_attrs.specs.Streams.{Decoding};

    ghost Value = { Decoding };

    ghost view = { λ d. record {
      held = drop d.start d.bytes.items;
      taken = d.taken;
      fault = d.fault;
    } };

    ghost invariant = { λ d. (d.start ≤ length d.bytes.items)
        × (d.taken + (length d.bytes.items - d.start) ≤ 2 ^ 63) };
}

/// Moves what stands from `start` on to the front, where at least as much was taken, and answers
/// where it stands then. So no more bytes are moved in all than were taken.
fn close_up(bytes: &mut Vec<u8>, start: usize) -> usize
    requires { start ≤ length bytes.old.items }
    ensures within { result ≤ length bytes.new.items }
    ensures rest { drop result bytes.new.items ≡ drop start bytes.old.items }
{
    let left = bytes.len() - start;
    if start < left {
        return start;
    }
    bytes.copy_within(start.., 0);
    bytes.truncate(left);
    0
}

impl Decoder {
    /// A decoder that holds no bytes. It takes no memory until the first ones come.
    pub fn new(alloc: Global) -> Decoder
        ensures fresh { result ≡ nothing_fed }
        ensures stream { HasGiven result [] [] }
    {
        Decoder {
            bytes: Vec::new(alloc),
            start: 0,
            taken: 0,
            fault: None,
        }
    }

    /// Adds a piece to the bytes held; after a fault it changes nothing. No more than 2^63 bytes
    /// are fed in all. `OutOfMemory` changes nothing.
    pub fn feed(&mut self, piece: &[u8]) -> Result<(), OutOfMemory>
        requires { self.old.taken + length self.old.held + length piece.now ≤ 2 ^ 63 }
        ensures ok { OnOk result (self.new ≡ with_piece self.old piece.now) }
        ensures err { OnErr result (self.new ≡ self.old) }
        ensures after_fault { IsSome self.old.fault → IsOk result }
        // What was fed and given before goes on with the piece.
        ensures stream { OnOk result ((fed : List ℕ) (given : List Msg) →
            HasGiven self.old fed given → HasGiven self.new (fed ++ piece.now) given) }
    {
        if self.fault.is_some() {
            return Ok(());
        }
        self.start = close_up(&mut self.bytes, self.start);
        self.bytes.extend_from_slice(piece)?;
        Ok(())
    }

    /// Takes the next message from the front of the bytes held, or answers `None` where no message
    /// is whole yet. `NextFault::Bad` is the first fault of the stream, and comes ever after.
    /// `OutOfMemory` changes nothing.
    pub fn next(&mut self) -> Result<Option<Msg>, NextFault>
        ensures message { IfOk result (λ found. IfSome found (TakesMsg self.old self.new)) }
        ensures undecided { IfOk result (λ found. IfNone found (Waits self.old self.new)) }
        ensures fault { IfErr result (IsNextFault self.old self.new) }
        ensures again { (fault : AttrFault) → self.old.fault ≡ Some fault → result ≡ Err (Bad fault) }
        // It is the next message of all that was fed, or those given before are all.
        ensures stream { (fed : List ℕ) (given : List Msg) →
            HasGiven self.old fed given → GivesNext self.new fed given result }
    {
        if let Some(fault) = self.fault {
            return Err(NextFault::Bad(fault));
        }
        match message_at(*self.bytes.allocator(), &self.bytes[self.start..]) {
            Ok(Some((message, length))) => {
                self.start += length;
                self.taken += length as u64;
                Ok(Some(message))
            }
            Ok(None) => Ok(None),
            Err(NextFault::Bad(fault)) => {
                self.fault = Some(fault);
                Err(NextFault::Bad(fault))
            }
            Err(NextFault::OutOfMemory) => Err(NextFault::OutOfMemory),
        }
    }

    /// Whether the stream may end here: not where bytes are held, nor after a fault, which is
    /// answered then.
    pub fn finish(&self) -> Result<(), AttrFault>
        ensures done { OnOk result ((self.now.held ≡ []) × (self.now.fault ≡ None)) }
        ensures fault { IfErr result (IsLeft self.now.fault (length self.now.held)) }
        // What was fed is the spellings of the messages given, or has that fault behind them.
        ensures stream { (fed : List ℕ) (given : List Msg) →
            HasGiven self.now fed given → EndsStream fed given result }
    {
        if let Some(fault) = self.fault {
            return Err(fault);
        }
        let left = self.bytes.len() - self.start;
        if left > 0 {
            return Err(AttrFault::Truncated(left as u64));
        }
        Ok(())
    }

    /// The joined length of the spellings of all messages that were taken, in bytes.
    pub fn taken(&self) -> u64
        ensures taken { result ≡ self.now.taken }
        ensures stream { (fed : List ℕ) (given : List Msg) →
            HasGiven self.now fed given → result ≡ length (all_spelled given) }
    {
        self.taken
    }
}
