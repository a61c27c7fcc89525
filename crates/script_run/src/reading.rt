//! Reads a script in pieces, and has it answered.

ghost use Rattle.std.specs.Prelude.{◌≡◌, ◌↔◌, [], ◌≤◌, ℕ, List, Option, IfErr, IsTrue, OnOk};
ghost use Rattle.rule_tables.specs.declared.domain.Domain.{Domain};
ghost use Rattle.radio_drv.specs.Seen.{Seen};
ghost use Rattle.reg_core.specs.Kept.{StandsFor};
ghost use Rattle.reg_core.specs.Stepping.{IsReady};
ghost use Rattle.db_commands.specs.Devices.{around, driven};
ghost use Rattle.core_runs.specs.Driven.{AreIdle};
ghost use Rattle.script_run.specs.Output.{LineGives};
ghost use Rattle.script_run.specs.Run.{IsAnswering};
ghost use Rattle.core_runs.specs.Answered.{IsAnswered};
ghost use Rattle.script_run.specs.inner.Turns.{HasHaltCause, IsCutOf, IsHalt, IsReadSoFar, status_of_halt};
ghost use Rattle.iw_commands.specs.Scripts.{script_lines};

use crate::answering::{Halt, answer_bytes, answer_line};
use db_commands::Status;
use iw_commands::{Cut, LineCutter};
use reg_base::{Bytes, Sink, Source};
use reg_core::{Core, DriverRow};
use std::alloc::Global;

/// How many bytes a script may have.
const SCRIPT_LIMIT: usize = 4_294_967_295;

/// How many bytes are asked for at once.
const BUFFER: usize = 16_384;

/// Reads the script in pieces to its end. Each line is answered as its newline comes, and a last one
/// without newline at the end.
pub fn answer_script<S: Source, K: Sink, D: DriverRow>(
    alloc: Global,
    core: &mut Core,
    input: &mut S,
    out: &mut K,
    drivers: &mut D,
) -> Status
    requires ready { IsReady core.old (D.seen drivers.old) }
    requires idle { AreIdle 8 (D.seen drivers.old) }
    ensures answering { (db : List Domain) → StandsFor db core.old [] → IsAnswering db
        (around (S.left input.old) (S.left input.new) (S.count input.old) (S.count input.new))
        (around (K.held out.old) (K.held out.new) (K.count out.old) (K.count out.new))
        (driven (D.seen drivers.old) (D.seen drivers.new)) result }
    ensures input_faults { S.count input.old ≤ S.count input.new }
    ensures output_faults { K.count out.old ≤ K.count out.new }
{
    let Ok(mut cutter) = LineCutter::new(alloc) else {
        return Status::NoMemory;
    };
    let mut text = Bytes::new(alloc);
    let mut buffer = [0u8; BUFFER];
    let mut left = SCRIPT_LIMIT;
    'reading: loop {
        let Ok(count) = input.read(&mut buffer) else {
            return Status::ReadFault;
        };
        if count == 0 {
            return match answer_last(core, &cutter, &mut text, out, drivers) {
                Ok(()) => Status::Done,
                Err(halt) => status_of(halt),
            };
        }
        let piece = &buffer[..count.min(left)];
        if let Err(halt) = answer_bytes(core, piece, &mut cutter, &mut text, out, drivers) {
            return status_of(halt);
        }
        if count > left {
            return Status::TooLong;
        }
        left -= count;
    }
}

/// Answers the line that is open at the end of the script, where it holds a byte.
fn answer_last<K: Sink, D: DriverRow>(
    core: &mut Core,
    cutter: &LineCutter,
    text: &mut Bytes,
    out: &mut K,
    drivers: &mut D,
) -> Result<(), Halt>
    requires ready { IsReady core.old (D.seen drivers.old) }
    ensures answered { OnOk result ((db : List Domain) (script : List ℕ) (before : Option (List ℕ)) (heard : List (Option Seen)) (n m : ℕ)
        → IsReadSoFar db script cutter.now before (K.held out.old) core.old heard (D.seen drivers.old)
        → IsAnswered (LineGives db) (script_lines script) (around before (K.held out.new) n m) (driven heard (D.seen drivers.new))) }
    ensures halted { IfErr result (λ halt. (db : List Domain) (script : List ℕ) (before : Option (List ℕ)) (heard : List (Option Seen)) (n m : ℕ)
        → IsReadSoFar db script cutter.now before (K.held out.old) core.old heard (D.seen drivers.old)
        → IsHalt db (script_lines script) (around before (K.held out.new) n m) (driven heard (D.seen drivers.new)) halt) }
    ensures cause { IfErr result (HasHaltCause (K.count out.old) (K.count out.new)) }
    ensures later { K.count out.old ≤ K.count out.new }
{
    if is_empty(cutter.line()) {
        return Ok(());
    }
    answer_line(core, cutter.line(), text, out, drivers)
}

/// Whether the line has no byte.
fn is_empty(line: Cut<'_>) -> bool
    ensures empty { (this : List ℕ) → IsCutOf this line.entry → IsTrue result ↔ (this ≡ []) }
{
    match line {
        Cut::Whole(bytes) => bytes.is_empty(),
        Cut::TooLong => false,
    }
}

/// What the command ends with where the answering stops.
fn status_of(halt: Halt) -> Status
    ensures { result ≡ status_of_halt halt }
{
    match halt {
        Halt::NoMemory => Status::NoMemory,
        Halt::WriteFault => Status::WriteFault,
    }
}
