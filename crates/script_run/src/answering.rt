//! Answers a script line by line, as its newlines come.

ghost use Rattle.std.specs.Prelude.{◌≡◌, [], ◌∷◌, ◌++◌, ◌⊎◌, ◌<◌, ◌≤◌, ℕ, List, Option, IfErr, IfOk, OnErr, OnOk, false, length, take};
ghost use Rattle.rule_tables.specs.declared.domain.Domain.{Domain};
ghost use Rattle.radio_drv.specs.Seen.{Seen};
ghost use Rattle.reg_base.specs.Appended.{AppendsAtMost};
ghost use Rattle.reg_base.specs.Causes.{HasCause};
ghost use Rattle.reg_core.specs.Stepping.{IsReady};
ghost use Rattle.reg_journal.specs.Facts.{Journal};
ghost use Rattle.db_commands.specs.Devices.{around, driven};
ghost use Rattle.core_runs.specs.Driven.{IsAt};
ghost use Rattle.script_run.specs.Output.{LineGives};
ghost use Rattle.script_run.specs.inner.Turns.{HaltsAmong, HasHaltCause, IsCutOf, IsHalt, IsReadSoFar};
ghost use Rattle.core_runs.specs.Turns.{IsRunSoFar, IsTurn};

use iw_commands::{Cut, LineCutter, LineFault, ReadLineFault, put_fault, put_reply, read_line};
use reg_base::{Bytes, Failed, Sink};
use reg_core::{Core, DriverRow};
use reg_lists::OutOfMemory;

/// Why the answering of lines stops.
#[derive(Clone, Copy)]
pub enum Halt {
    /// No memory was found.
    NoMemory,
    /// The answer could not be written.
    WriteFault,
}

/// Takes the bytes into the cutter, and answers each line as its newline comes.
pub fn answer_bytes<K: Sink, D: DriverRow>(
    core: &mut Core,
    bytes: &[u8],
    cutter: &mut LineCutter,
    text: &mut Bytes,
    out: &mut K,
    drivers: &mut D,
) -> Result<(), Halt>
    requires ready { IsReady core.old (D.seen drivers.old) }
    requires unended { cutter.old.ended ≡ false }
    ensures answered { OnOk result ((db : List Domain) (taken : List ℕ) (before : Option (List ℕ)) (heard : List (Option Seen))
        → IsReadSoFar db taken cutter.old before (K.held out.old) core.old heard (D.seen drivers.old)
        → IsReadSoFar db (taken ++ bytes.now) cutter.new before (K.held out.new) core.new heard (D.seen drivers.new)) }
    ensures halted { IfErr result (λ halt. (db : List Domain) (taken : List ℕ) (before : Option (List ℕ)) (heard : List (Option Seen)) (n m : ℕ)
        → IsReadSoFar db taken cutter.old before (K.held out.old) core.old heard (D.seen drivers.old)
        → HaltsAmong db (taken ++ bytes.now) (around before (K.held out.new) n m) (driven heard (D.seen drivers.new)) halt) }
    ensures cause { IfErr result (HasHaltCause (K.count out.old) (K.count out.new)) }
    ensures later { K.count out.old ≤ K.count out.new }
    ensures ready { IsReady core.new (D.seen drivers.new) }
    ensures unended { cutter.new.ended ≡ false }
{
    let mut place = 0;
    'pieces: while place < bytes.len() {
        place += answer_piece(core, &bytes[place..], cutter, text, out, drivers)?;
    }
    Ok(())
}

/// Takes the first of the bytes into the cutter, and tells how many: those up to a newline, or a
/// newline, and then it answers the line that ends.
fn answer_piece<K: Sink, D: DriverRow>(
    core: &mut Core,
    piece: &[u8],
    cutter: &mut LineCutter,
    text: &mut Bytes,
    out: &mut K,
    drivers: &mut D,
) -> Result<usize, Halt>
    requires some { 0 < length piece.now }
    requires ready { IsReady core.old (D.seen drivers.old) }
    requires unended { cutter.old.ended ≡ false }
    ensures some { IfOk result (λ n. 0 < n) }
    ensures within { IfOk result (λ n. n ≤ length piece.now) }
    ensures answered { IfOk result (λ n. (db : List Domain) (taken : List ℕ) (before : Option (List ℕ)) (heard : List (Option Seen))
        → IsReadSoFar db taken cutter.old before (K.held out.old) core.old heard (D.seen drivers.old)
        → IsReadSoFar db (taken ++ take n piece.now) cutter.new before (K.held out.new) core.new heard (D.seen drivers.new)) }
    ensures halted { IfErr result (λ halt. (db : List Domain) (taken : List ℕ) (before : Option (List ℕ)) (heard : List (Option Seen)) (n m : ℕ)
        → IsReadSoFar db taken cutter.old before (K.held out.old) core.old heard (D.seen drivers.old)
        → HaltsAmong db (taken ++ piece.now) (around before (K.held out.new) n m) (driven heard (D.seen drivers.new)) halt) }
    ensures cause { IfErr result (HasHaltCause (K.count out.old) (K.count out.new)) }
    ensures later { K.count out.old ≤ K.count out.new }
    ensures ready { IsReady core.new (D.seen drivers.new) }
    ensures unended { cutter.new.ended ≡ false }
{
    let count = cutter.append(piece);
    if count > 0 {
        return Ok(count);
    }
    answer_byte(core, piece[0], cutter, text, out, drivers)?;
    Ok(1)
}

/// Takes the byte into the cutter, and answers the line that a newline ends.
fn answer_byte<K: Sink, D: DriverRow>(
    core: &mut Core,
    byte: u8,
    cutter: &mut LineCutter,
    text: &mut Bytes,
    out: &mut K,
    drivers: &mut D,
) -> Result<(), Halt>
    requires ready { IsReady core.old (D.seen drivers.old) }
    requires unended { cutter.old.ended ≡ false }
    ensures answered { OnOk result ((db : List Domain) (taken : List ℕ) (before : Option (List ℕ)) (heard : List (Option Seen))
        → IsReadSoFar db taken cutter.old before (K.held out.old) core.old heard (D.seen drivers.old)
        → IsReadSoFar db (taken ++ byte ∷ []) cutter.new before (K.held out.new) core.new heard (D.seen drivers.new)) }
    ensures halted { IfErr result (λ halt. (db : List Domain) (taken more : List ℕ) (before : Option (List ℕ)) (heard : List (Option Seen)) (n m : ℕ)
        → IsReadSoFar db taken cutter.old before (K.held out.old) core.old heard (D.seen drivers.old)
        → HaltsAmong db (taken ++ byte ∷ more) (around before (K.held out.new) n m) (driven heard (D.seen drivers.new)) halt) }
    ensures cause { IfErr result (HasHaltCause (K.count out.old) (K.count out.new)) }
    ensures later { K.count out.old ≤ K.count out.new }
    ensures ready { IsReady core.new (D.seen drivers.new) }
    ensures unended { cutter.new.ended ≡ false }
{
    if !cutter.push(byte) {
        return Ok(());
    }
    let answered = answer_line(core, cutter.line(), text, out, drivers);
    cutter.clear();
    answered
}

/// Answers a line, and writes its answer at once, where there is one.
pub fn answer_line<K: Sink, D: DriverRow>(
    core: &mut Core,
    line: Cut<'_>,
    text: &mut Bytes,
    out: &mut K,
    drivers: &mut D,
) -> Result<(), Halt>
    requires ready { IsReady core.old (D.seen drivers.old) }
    ensures answered { OnOk result ((db : List Domain) (lines : List (List ℕ)) (this : List ℕ) (before : Option (List ℕ)) (heard : List (Option Seen))
        → IsCutOf this line.entry
        → IsRunSoFar (LineGives db) db lines before (K.held out.old) core.old heard (D.seen drivers.old)
        → IsRunSoFar (LineGives db) db (lines ++ this ∷ []) before (K.held out.new) core.new heard (D.seen drivers.new)) }
    ensures halted { IfErr result (λ halt. (db : List Domain) (lines : List (List ℕ)) (this : List ℕ) (rest : List (List ℕ)) (before : Option (List ℕ)) (heard : List (Option Seen)) (n m : ℕ)
        → IsCutOf this line.entry
        → IsRunSoFar (LineGives db) db lines before (K.held out.old) core.old heard (D.seen drivers.old)
        → IsHalt db (lines ++ this ∷ rest) (around before (K.held out.new) n m) (driven heard (D.seen drivers.new)) halt) }
    ensures cause { IfErr result (HasHaltCause (K.count out.old) (K.count out.new)) }
    ensures later { K.count out.old ≤ K.count out.new }
    ensures ready { IsReady core.new (D.seen drivers.new) }
{
    if answer_cut(core, line, text, drivers).is_err() {
        return Err(Halt::NoMemory);
    }
    if write_text(out, text.as_slice()).is_err() {
        return Err(Halt::WriteFault);
    }
    Ok(())
}

/// Answers a line. Its answer is then all that the buffer holds. After `OutOfMemory` the core and the
/// drivers are as before or went on to the next journal.
fn answer_cut<D: DriverRow>(
    core: &mut Core,
    line: Cut<'_>,
    text: &mut Bytes,
    drivers: &mut D,
) -> Result<(), OutOfMemory>
    requires ready { IsReady core.old (D.seen drivers.old) }
    ensures answered { OnOk result ((db : List Domain) (J : Journal) (this : List ℕ)
        → IsCutOf this line.entry
        → IsAt db J core.old (D.seen drivers.old)
        → IsTurn (LineGives db) db J this text.new core.new
        (D.seen drivers.old) (D.seen drivers.new)) }
    ensures stopped { OnErr result ((db : List Domain) (J : Journal) (this : List ℕ)
        → IsCutOf this line.entry
        → IsAt db J core.old (D.seen drivers.old)
        → (D.seen drivers.new
        ≡ D.seen drivers.old)
        ⊎ ((answer : List ℕ) × IsTurn (LineGives db) db J this answer core.new
        (D.seen drivers.old) (D.seen drivers.new))) }
    ensures ready { IsReady core.new (D.seen drivers.new) }
{
    match line {
        Cut::Whole(bytes) => answer_whole(core, bytes, text, drivers),
        Cut::TooLong => {
            text.clear();
            put_fault(text, &LineFault::TooLong)
        }
    }
}

/// Answers a line that is whole. Its answer is then all that the buffer holds. After `OutOfMemory` the core and the
/// drivers are as before or went on to the next journal.
fn answer_whole<D: DriverRow>(
    core: &mut Core,
    line: &[u8],
    text: &mut Bytes,
    drivers: &mut D,
) -> Result<(), OutOfMemory>
    requires ready { IsReady core.old (D.seen drivers.old) }
    ensures answered { OnOk result ((db : List Domain) (J : Journal)
        → IsAt db J core.old (D.seen drivers.old)
        → IsTurn (LineGives db) db J line.now text.new core.new
        (D.seen drivers.old) (D.seen drivers.new)) }
    ensures stopped { OnErr result ((db : List Domain) (J : Journal)
        → IsAt db J core.old (D.seen drivers.old)
        → (D.seen drivers.new
        ≡ D.seen drivers.old)
        ⊎ ((answer : List ℕ) × IsTurn (LineGives db) db J line.now answer core.new
        (D.seen drivers.old) (D.seen drivers.new))) }
    ensures ready { IsReady core.new (D.seen drivers.new) }
{
    text.clear();
    match read_line(text.allocator(), line) {
        Ok(None) => Ok(()),
        Ok(Some(request)) => match core.step(&request, drivers) {
            Ok(reply) => put_reply(text, &reply),
            Err(_no_memory) => Err(OutOfMemory),
        },
        Err(ReadLineFault::Line(fault)) => put_fault(text, &fault),
        Err(ReadLineFault::OutOfMemory) => Err(OutOfMemory),
    }
}

/// Writes the text at once, where there is one.
fn write_text<K: Sink>(out: &mut K, text: &[u8]) -> Result<(), Failed>
    ensures bytes { AppendsAtMost (K.held out.old) (K.held out.new) result text.now }
    ensures cause { HasCause (K.count out.old) (K.count out.new) result }
{
    if text.is_empty() {
        return Ok(());
    }
    out.write_all(text)
}
