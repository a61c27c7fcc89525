//! The lines of a text.

ghost use Rattle.std.specs.Prelude.{◌≡◌, ◌≤◌, ◌<◌, [], ◌∷◌, length, IfSome, IsUtf8, MatchOption, MatchResult, OnOk};
ghost use Rattle.text_lines.specs.Lines.{IsReadableLine, bare, is_text_blank, text_lines, without_comment};
ghost use Rattle.text_lines.specs.LineFaults.{IsUnreadable};

use crate::fault::TextKind;
use crate::scanner::cut_at;
use memchr::memchr;
use reg_base::MOST_LINE_BYTES;
use reg_lists::OutOfMemory;

/// The first line of a text, without its newline, and what is behind the newline, if there is one.
pub fn cut_line(text: &[u8]) -> (&[u8], Option<&[u8]>)
    ensures lines { MatchOption result.1
        (text_lines text.now ≡ result.0.now ∷ [])
        (λ rest. text_lines text.now ≡ result.0.now ∷ text_lines rest.now) }
    ensures shorter { IfSome result.1 (λ rest. length rest.now < length text.now) }
{
    cut_at(text, b'\n')
}

/// Whether the line has at most 4,096 bytes and is UTF-8, and what it isn't otherwise.
pub fn readable(line: &[u8]) -> Result<(), TextKind>
    ensures readable { MatchResult result (λ _. IsReadableLine line.now) (IsUnreadable line.now) }
{
    if line.len() > MOST_LINE_BYTES {
        return Err(TextKind::LineTooLong);
    }
    if !simdutf8::is_utf8(line) {
        return Err(TextKind::NotUtf8);
    }
    Ok(())
}

/// Whether it is a space, a tab or a carriage return.
fn is_blank(byte: u8) -> bool
    ensures { result ≡ is_text_blank byte }
{
    byte == b' ' || byte == b'\t' || byte == b'\r'
}

/// What stands before the first `#`.
#[tactic(auto, using(crate::proofs::Comments::steps))]
fn without_comment(line: &[u8]) -> &[u8]
    ensures { result.now ≡ without_comment line.now }
{
    match memchr(b'#', line) {
        Some(place) => &line[..place],
        None => line,
    }
}

/// Puts what counts of a line into the buffer, in place of what it held.
#[tactic(auto, using(crate::proofs::Solid::steps))]
pub fn squeeze(line: &[u8], buffer: &mut Vec<u8>) -> Result<(), OutOfMemory>
    ensures bare { OnOk result (buffer.new.items ≡ bare line.now) }
{
    buffer.clear();
    let text = without_comment(line);
    for byte in text {
        if !is_blank(*byte) {
            buffer.push(*byte)?;
        }
    }
    Ok(())
}
