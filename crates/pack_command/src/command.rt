//! The command `pack`: packs the requests of a script into messages.

ghost use Rattle.std.specs.Prelude.{◌≡◌, ◌↔◌, [], ◌<◌, ◌≤◌, ℕ, List, Option, IfErr, IsTrue, OnOk, length};
ghost use Rattle.db_commands.specs.Devices.{around};
ghost use Rattle.iw_commands.specs.Scripts.{script_lines};
ghost use Rattle.script_run.specs.inner.Turns.{IsCutOf};
ghost use Rattle.pack_command.specs.Pack.{IsPackStatus};
ghost use Rattle.pack_command.specs.Packing.{AreAllPacked};
ghost use Rattle.pack_command.specs.inner.Steps.{HasLineRoom, HasStopCause, IsPackedSoFar, IsPackStop, status_of_stop};

use crate::packing::{Progress, Stop, pack_bytes, pack_line};
use db_commands::{InputFault, Status};
use iw_commands::{Cut, LineCutter};
use reg_base::{Bytes, Sink, Source};
use std::alloc::Global;

/// How many bytes a script may have.
const SCRIPT_LIMIT: usize = 4_294_967_295;

/// How many bytes are asked for at once.
const BUFFER: usize = 16_384;

/// Reads a script in pieces to its end, and writes the message of each request, numbered from 1 on, as
/// the newline of its line comes; of a last line without newline at the end. The first line with a
/// fault ends it. Before `ReadFault`, and before `TooLong` where the script has more than 4,294,967,295
/// bytes, the lines were packed whose newlines were taken within that limit.
pub fn pack<S: Source, K: Sink>(alloc: Global, input: &mut S, out: &mut K) -> Status
    ensures input_faults { S.count input.old ≤ S.count input.new }
    ensures output_faults { K.count out.old ≤ K.count out.new }
    ensures packed { IsPackStatus
        (around (S.left input.old) (S.left input.new) (S.count input.old) (S.count input.new))
        (around (K.held out.old) (K.held out.new) (K.count out.old) (K.count out.new)) result }
{
    let Ok(mut cutter) = LineCutter::new(alloc) else {
        return Status::NoMemory;
    };
    let mut progress = Progress {
        lines: 0,
        requests: 0,
    };
    let mut text = Bytes::new(alloc);
    let mut buffer = [0u8; BUFFER];
    let mut left = SCRIPT_LIMIT;
    'reading: loop {
        let Ok(count) = input.read(&mut buffer) else {
            return Status::ReadFault;
        };
        if count == 0 {
            return match pack_last(&mut progress, &cutter, &mut text, out) {
                Ok(()) => Status::Done,
                Err(stop) => status_of(stop),
            };
        }
        let piece = &buffer[..count.min(left)];
        if let Err(stop) = pack_bytes(&mut progress, piece, &mut cutter, &mut text, out) {
            return status_of(stop);
        }
        if count > left {
            return Status::TooLong;
        }
        left -= count;
    }
}

/// Packs the line that is open at the end of the script, where it holds a byte.
fn pack_last<K: Sink>(
    progress: &mut Progress,
    cutter: &LineCutter,
    text: &mut Bytes,
    out: &mut K,
) -> Result<(), Stop>
    requires room { HasLineRoom cutter.now progress.old.lines }
    requires fewer { progress.old.requests ≤ progress.old.lines }
    ensures packed { OnOk result ((script : List ℕ) (before : Option (List ℕ)) (n m : ℕ)
        → IsPackedSoFar script cutter.now before (K.held out.old) progress.old
        → AreAllPacked (script_lines script) (around before (K.held out.new) n m)) }
    ensures stopped { IfErr result (λ stop. (script : List ℕ) (before : Option (List ℕ)) (n m : ℕ)
        → IsPackedSoFar script cutter.now before (K.held out.old) progress.old
        → IsPackStop (script_lines script) (around before (K.held out.new) n m) stop) }
    ensures cause { IfErr result (HasStopCause (K.count out.old) (K.count out.new)) }
    ensures later { K.count out.old ≤ K.count out.new }
{
    if is_empty(cutter.line()) {
        return Ok(());
    }
    pack_line(progress, cutter.line(), text, out)
}

/// Whether the line has no byte.
fn is_empty(line: Cut<'_>) -> bool
    ensures empty { (this : List ℕ) → IsCutOf this line.entry → IsTrue result ↔ (this ≡ []) }
{
    match line {
        Cut::Whole(bytes) => bytes.is_empty(),
        Cut::TooLong => false,
    }
}

/// What the command ends with where the packing stops.
fn status_of(stop: Stop) -> Status
    ensures { result ≡ status_of_stop stop }
{
    match stop {
        Stop::NoMemory => Status::NoMemory,
        Stop::WriteFault => Status::WriteFault,
        Stop::Faulty { number, fault } => Status::Refused(InputFault::Line { number, fault }),
    }
}
