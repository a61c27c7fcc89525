//! Answers the messages of a stream.

ghost use Rattle.std.specs.Prelude.{◌≡◌, ◌+◌, ◌≤◌, ℕ, List, Option, None, IfErr, OnOk, length};
ghost use Rattle.rule_tables.specs.declared.domain.Domain.{Domain};
ghost use Rattle.radio_drv.specs.Seen.{Seen};
ghost use Rattle.db_commands.specs.Devices.{around, driven};
ghost use Rattle.wire_run.specs.inner.Steps.{HasStreamCause, IsReached, IsFedSoFar, IsStreamStop, IsWholeSoFar};

use crate::answering::{Halt, answer_message};
use nl_attrs::{AttrFault, Decoder, NextFault};
use reg_base::{Bytes, Sink};
use reg_core::{Core, DriverRow};

/// Why the answering of a stream stops.
#[derive(Clone, Copy)]
pub enum Stop {
    /// The answering of a message halted.
    Halted(Halt),
    /// The message that begins at this place of the stream, in bytes, has this fault.
    Faulty { place: u64, fault: AttrFault },
}

/// Answers each message that the decoder holds whole.
pub fn answer_held<K: Sink, D: DriverRow>(
    core: &mut Core,
    decoder: &mut Decoder,
    text: &mut Bytes,
    out: &mut K,
    drivers: &mut D,
) -> Result<(), Stop>
    requires ready { IsReached core.old (D.seen drivers.old) }
    requires sound { decoder.old.fault ≡ None }
    ensures answered { OnOk result ((db : List Domain) (fed : List ℕ) (before : Option (List ℕ)) (heard : List (Option Seen))
        → IsFedSoFar db fed decoder.old before (K.held out.old) core.old heard (D.seen drivers.old)
        → IsWholeSoFar db fed decoder.new before (K.held out.new) core.new heard (D.seen drivers.new)) }
    ensures stopped { IfErr result (λ stop. (db : List Domain) (fed : List ℕ) (before : Option (List ℕ)) (heard : List (Option Seen)) (n m : ℕ)
        → IsFedSoFar db fed decoder.old before (K.held out.old) core.old heard (D.seen drivers.old)
        → IsStreamStop db fed (around before (K.held out.new) n m) (driven heard (D.seen drivers.new)) stop) }
    ensures cause { IfErr result (HasStreamCause (K.count out.old) (K.count out.new)) }
    ensures later { K.count out.old ≤ K.count out.new }
    ensures ready { OnOk result (IsReached core.new (D.seen drivers.new)) }
    ensures sound { OnOk result (decoder.new.fault ≡ None) }
    ensures kept { OnOk result (decoder.new.taken + length decoder.new.held ≡ decoder.old.taken + length decoder.old.held) }
{
    'messages: loop {
        let message = match decoder.next() {
            Ok(Some(message)) => message,
            Ok(None) => return Ok(()),
            Err(NextFault::Bad(fault)) => {
                let place = decoder.taken();
                return Err(Stop::Faulty { place, fault });
            }
            Err(NextFault::OutOfMemory) => return Err(Stop::Halted(Halt::NoMemory)),
        };
        if let Err(halt) = answer_message(core, &message, text, out, drivers) {
            return Err(Stop::Halted(halt));
        }
    }
}
