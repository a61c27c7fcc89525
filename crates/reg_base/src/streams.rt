//! Sources and sinks over readers and writers, which tell the bytes that those tell. The standard
//! streams tell none: the trusted edge.

ghost use Rattle.std.specs.Prelude.{◌≡◌, ◌<◌, length, MatchResult};
ghost use Rattle.std.specs.Io.{ReadsAtMost};
ghost use Rattle.std.specs.Io.KnownBytes.{ReadConsumes};
ghost use Rattle.reg_base.specs.Causes.{HasCause, counted};
ghost use Rattle.reg_base.specs.Appended.{AppendsAtMost};
ghost use Rattle.reg_base.specs.Streams.{reader_of, failed_reads, writer_of, failed_writes};

use crate::errors::Failed;
use crate::sink::Sink;
use crate::source::Source;
use std::io::{Read, Write};

/// A source over a reader, as standard input.
#[derive(Drop)]
pub struct StdSource<R: Read> {
    reader: R,
    faults: u64,
}

impl<R: Read> StdSource<R> {
    pub fn new(reader: R) -> StdSource<R>
        ensures reader { reader_of result ≡ reader }
        ensures faults { failed_reads result ≡ 0 }
    {
        StdSource { reader, faults: 0 }
    }
}

impl<R: Read> Source for StdSource<R> {
    ghost left = { λ s. R.remaining (reader_of s) };

    ghost count = { λ s. failed_reads s };

    fn read(&mut self, buf: &mut [u8]) -> Result<usize, Failed>
        requires { 0 < length buf.old }
        ensures bound { ReadsAtMost result buf.new }
        ensures bytes { ReadConsumes (R.remaining (reader_of self.old)) (R.remaining (reader_of self.new)) result buf.new }
        ensures cause { HasCause (failed_reads self.old) (failed_reads self.new) result }
        ensures faults { MatchResult result (λ _. failed_reads self.new ≡ failed_reads self.old) (λ _. failed_reads self.new ≡ counted (failed_reads self.old)) }
    {
        match self.reader.read(buf) {
            Ok(count) => Ok(count),
            Err(_error) => {
                self.faults = self.faults.saturating_add(1);
                Err(Failed)
            }
        }
    }

    fn faults(&self) -> u64 {
        self.faults
    }
}

/// A sink over a writer, as standard output. Each piece is flushed.
#[derive(Drop)]
pub struct StdSink<W: Write> {
    writer: W,
    faults: u64,
}

impl<W: Write> StdSink<W> {
    pub fn new(writer: W) -> StdSink<W>
        ensures writer { writer_of result ≡ writer }
        ensures faults { failed_writes result ≡ 0 }
    {
        StdSink { writer, faults: 0 }
    }
}

/// Writes all of the piece and flushes. A write that takes nothing of what is left is a fault.
fn write_piece<W: Write>(writer: &mut W, piece: &[u8]) -> Result<(), Failed>
    ensures { AppendsAtMost (W.contents writer.old) (W.contents writer.new) result piece.now }
{
    let mut rest = piece;
    while !rest.is_empty() {
        match writer.write(rest) {
            Ok(0) => return Err(Failed),
            Ok(count) => rest = &rest[count..],
            Err(_error) => return Err(Failed),
        }
    }
    match writer.flush() {
        Ok(()) => Ok(()),
        Err(_error) => Err(Failed),
    }
}

impl<W: Write> Sink for StdSink<W> {
    ghost held = { λ s. W.contents (writer_of s) };

    ghost count = { λ s. failed_writes s };

    fn write_all(&mut self, piece: &[u8]) -> Result<(), Failed>
        ensures bytes { AppendsAtMost (W.contents (writer_of self.old)) (W.contents (writer_of self.new)) result piece.now }
        ensures cause { HasCause (failed_writes self.old) (failed_writes self.new) result }
        ensures faults { MatchResult result (λ _. failed_writes self.new ≡ failed_writes self.old) (λ _. failed_writes self.new ≡ counted (failed_writes self.old)) }
    {
        let written = write_piece(&mut self.writer, piece);
        if written.is_err() {
            self.faults = self.faults.saturating_add(1);
        }
        written
    }

    fn faults(&self) -> u64 {
        self.faults
    }
}
