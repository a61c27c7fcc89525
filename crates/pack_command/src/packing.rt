//! Packs a script line by line, as its newlines come.

ghost use Rattle.std.specs.Prelude.{◌≡◌, [], ◌∷◌, ◌++◌, ◌+◌, ◌<◌, ◌≤◌, ℕ, List, Option, IfErr, OnOk, false, length};
ghost use Rattle.reg_base.specs.Appended.{AppendsAtMost};
ghost use Rattle.reg_base.specs.Causes.{HasCause};
ghost use Rattle.script_run.specs.inner.Turns.{IsCutOf};
ghost use Rattle.db_commands.specs.Devices.{around};
ghost use Rattle.pack_command.specs.inner.Steps.{HasStopCause, IsPackedTo, IsPackedSoFar, IsPackStop, StopsAmong};

use crate::requests::put_line;
use iw_commands::{Cut, LineCutter, LineFault, ReadLineFault};
use reg_base::{Bytes, Failed, Sink};

/// Why the packing of lines stops.
#[derive(Clone, Copy)]
pub enum Stop {
    /// No memory was found.
    NoMemory,
    /// The message could not be written.
    WriteFault,
    /// The line of that number, counted from 1, has this fault.
    Faulty { number: u64, fault: LineFault },
}

/// How far the packing came.
#[derive(Clone, Copy)]
pub struct Progress {
    /// How many lines were packed.
    pub lines: u64,
    /// How many of them ask something.
    pub requests: u32,
}

/// Takes the bytes into the cutter, and packs each line as its newline comes.
pub fn pack_bytes<K: Sink>(
    progress: &mut Progress,
    bytes: &[u8],
    cutter: &mut LineCutter,
    text: &mut Bytes,
    out: &mut K,
) -> Result<(), Stop>
    requires unended { cutter.old.ended ≡ false }
    requires room { progress.old.lines + length bytes.now ≤ 4294967295 }
    requires fewer { progress.old.requests ≤ progress.old.lines }
    ensures packed { OnOk result ((taken : List ℕ) (before : Option (List ℕ))
        → IsPackedSoFar taken cutter.old before (K.held out.old) progress.old
        → IsPackedSoFar (taken ++ bytes.now) cutter.new before (K.held out.new) progress.new) }
    ensures stopped { IfErr result (λ stop. (taken : List ℕ) (before : Option (List ℕ)) (n m : ℕ)
        → IsPackedSoFar taken cutter.old before (K.held out.old) progress.old
        → StopsAmong (taken ++ bytes.now) (around before (K.held out.new) n m) stop) }
    ensures cause { IfErr result (HasStopCause (K.count out.old) (K.count out.new)) }
    ensures later { K.count out.old ≤ K.count out.new }
    ensures unended { cutter.new.ended ≡ false }
    ensures fewer { OnOk result (progress.new.requests ≤ progress.new.lines) }
{
    for byte in bytes {
        pack_byte(progress, *byte, cutter, text, out)?;
    }
    Ok(())
}

/// Takes the byte into the cutter, and packs the line that a newline ends.
fn pack_byte<K: Sink>(
    progress: &mut Progress,
    byte: u8,
    cutter: &mut LineCutter,
    text: &mut Bytes,
    out: &mut K,
) -> Result<(), Stop>
    requires unended { cutter.old.ended ≡ false }
    requires room { progress.old.lines < 4294967295 }
    requires fewer { progress.old.requests ≤ progress.old.lines }
    ensures packed { OnOk result ((taken : List ℕ) (before : Option (List ℕ))
        → IsPackedSoFar taken cutter.old before (K.held out.old) progress.old
        → IsPackedSoFar (taken ++ byte ∷ []) cutter.new before (K.held out.new) progress.new) }
    ensures stopped { IfErr result (λ stop. (taken more : List ℕ) (before : Option (List ℕ)) (n m : ℕ)
        → IsPackedSoFar taken cutter.old before (K.held out.old) progress.old
        → StopsAmong (taken ++ byte ∷ more) (around before (K.held out.new) n m) stop) }
    ensures cause { IfErr result (HasStopCause (K.count out.old) (K.count out.new)) }
    ensures later { K.count out.old ≤ K.count out.new }
    ensures unended { cutter.new.ended ≡ false }
    ensures lines { OnOk result (progress.new.lines ≤ progress.old.lines + 1) }
    ensures fewer { OnOk result (progress.new.requests ≤ progress.new.lines) }
{
    if !cutter.push(byte) {
        return Ok(());
    }
    let packed = pack_line(progress, cutter.line(), text, out);
    cutter.clear();
    packed
}

/// Packs a line, and writes its message at once, where it asks something.
pub fn pack_line<K: Sink>(
    progress: &mut Progress,
    line: Cut<'_>,
    text: &mut Bytes,
    out: &mut K,
) -> Result<(), Stop>
    requires room { progress.old.lines < 4294967295 }
    requires fewer { progress.old.requests ≤ progress.old.lines }
    ensures packed { OnOk result ((lines : List (List ℕ)) (this : List ℕ) (before : Option (List ℕ))
        → IsCutOf this line.entry
        → IsPackedTo lines before (K.held out.old) progress.old
        → IsPackedTo (lines ++ this ∷ []) before (K.held out.new) progress.new) }
    ensures stopped { IfErr result (λ stop. (lines : List (List ℕ)) (this : List ℕ) (rest : List (List ℕ)) (before : Option (List ℕ)) (n m : ℕ)
        → IsCutOf this line.entry
        → IsPackedTo lines before (K.held out.old) progress.old
        → IsPackStop (lines ++ this ∷ rest) (around before (K.held out.new) n m) stop) }
    ensures cause { IfErr result (HasStopCause (K.count out.old) (K.count out.new)) }
    ensures later { K.count out.old ≤ K.count out.new }
    ensures lines { OnOk result (progress.new.lines ≡ progress.old.lines + 1) }
    ensures fewer { OnOk result (progress.new.requests ≤ progress.new.lines) }
{
    let number = progress.lines + 1;
    let fault = LineFault::TooLong;
    match line {
        Cut::Whole(bytes) => pack_whole(progress, bytes, text, out),
        Cut::TooLong => Err(Stop::Faulty { number, fault }),
    }
}

/// Packs a line that is whole, and writes its message at once, where it asks something.
fn pack_whole<K: Sink>(
    progress: &mut Progress,
    line: &[u8],
    text: &mut Bytes,
    out: &mut K,
) -> Result<(), Stop>
    requires room { progress.old.lines < 4294967295 }
    requires fewer { progress.old.requests ≤ progress.old.lines }
    ensures packed { OnOk result ((lines : List (List ℕ)) (before : Option (List ℕ))
        → IsPackedTo lines before (K.held out.old) progress.old
        → IsPackedTo (lines ++ line.now ∷ []) before (K.held out.new) progress.new) }
    ensures stopped { IfErr result (λ stop. (lines rest : List (List ℕ)) (before : Option (List ℕ)) (n m : ℕ)
        → IsPackedTo lines before (K.held out.old) progress.old
        → IsPackStop (lines ++ line.now ∷ rest) (around before (K.held out.new) n m) stop) }
    ensures cause { IfErr result (HasStopCause (K.count out.old) (K.count out.new)) }
    ensures later { K.count out.old ≤ K.count out.new }
    ensures lines { OnOk result (progress.new.lines ≡ progress.old.lines + 1) }
    ensures fewer { OnOk result (progress.new.requests ≤ progress.new.lines) }
{
    let number = progress.lines + 1;
    let requests = match put_line(text, line, progress.requests) {
        Ok(requests) => requests,
        Err(ReadLineFault::Line(fault)) => return Err(Stop::Faulty { number, fault }),
        Err(ReadLineFault::OutOfMemory) => return Err(Stop::NoMemory),
    };
    if write_text(out, text.as_slice()).is_err() {
        return Err(Stop::WriteFault);
    }
    progress.lines = number;
    progress.requests = requests;
    Ok(())
}

/// Writes the text at once, where there is one.
fn write_text<K: Sink>(out: &mut K, text: &[u8]) -> Result<(), Failed>
    ensures bytes { AppendsAtMost (K.held out.old) (K.held out.new) result text.now }
    ensures cause { HasCause (K.count out.old) (K.count out.new) result }
{
    if text.is_empty() {
        return Ok(());
    }
    out.write_all(text)
}
