//! Reads a rule text.

ghost use Rattle.std.specs.Prelude.{◌≡◌, ◌+◌, List, length, MatchResult};
ghost use Rattle.rule_text.specs.Forms.{Form};
ghost use Rattle.rule_text.specs.inner.State.{AreRead, AreSound, IsLineStop, ParserStands, TakesLine, fault_at};
ghost use Rattle.rule_text.specs.TextOf.{IsParseFault, TextOf};

use crate::assemble::assemble;
use crate::fault::{ParseFault, TextFault};
use crate::late::late_fault;
use crate::map_values::values_of;
use crate::parser::Parser;
use rule_tables::Db;
use std::alloc::Global;
use text_lines::{KnownPowers, LineStop, cut_line, readable, squeeze};

/// Takes the line of that number, counted from 1. The buffer is for what counts of the
/// line, and powers that were read before are known.
fn take_line(
    alloc: Global,
    parser: &mut Parser,
    buffer: &mut Vec<u8>,
    line: &[u8],
    number: u64,
    known: &mut KnownPowers,
) -> Result<(), LineStop>
    ensures { (above : List Form) → number ≡ length above + 1 → AreSound above → ParserStands above parser.old
        → MatchResult result (λ _. TakesLine above line.now parser.new) (IsLineStop above line.now) }
{
    match readable(line) {
        Ok(()) => {
            squeeze(line, buffer)?;
            parser.take(alloc, buffer.as_slice(), number, known)?;
            Ok(())
        }
        Err(kind) => Err(LineStop::Kind(kind)),
    }
}

/// The fault of a text whose line of that number isn't taken.
fn fault_at(stop: LineStop, line: u64) -> ParseFault
    ensures { result ≡ fault_at stop line }
{
    match stop {
        LineStop::Kind(kind) => ParseFault::Text(TextFault { line, kind }),
        LineStop::OutOfMemory => ParseFault::OutOfMemory,
    }
}

/// What the lines of the text say.
fn read_lines(alloc: Global, text: &[u8]) -> Result<Parser, ParseFault>
    ensures { MatchResult result (AreRead text.now) (IsParseFault text.now) }
{
    let mut parser = Parser::new(alloc);
    let mut buffer = Vec::new(alloc);
    let mut known = KnownPowers::new();
    let mut number = 0u64;
    let mut left = Some(text);
    while let Some(bytes) = left {
        let (line, rest) = cut_line(bytes);
        number += 1;
        if let Err(stop) = take_line(alloc, &mut parser, &mut buffer, line, number, &mut known) {
            return Err(fault_at(stop, number));
        }
        left = rest;
    }
    Ok(parser)
}

/// The database that the text stands for, or the fault of its first faulty line; where no line is
/// faulty, that of the first header that is left short: a WMM rule without all its items, or a
/// country without rules. Out of memory comes only where the first line is readable.
pub fn parse(alloc: Global, text: &[u8]) -> Result<Db, ParseFault>
    ensures stands_for { MatchResult result (λ db. TextOf text.now db) (IsParseFault text.now) }
{
    let Parser {
        countries,
        blocks,
        ..
    } = read_lines(alloc, text)?;
    let countries = values_of(alloc, countries)?;
    let blocks = values_of(alloc, blocks)?;
    if let Some(fault) = late_fault(blocks.as_slice(), countries.as_slice()) {
        return Err(ParseFault::Text(fault));
    }
    Ok(assemble(alloc, countries)?)
}
