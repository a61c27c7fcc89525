//! Reads the header of countries.

ghost use Rattle.std.specs.Prelude.{◌≡◌, ℕ, List, MatchOption, MatchResult, Some};
ghost use Rattle.text_lines.specs.LineFaults.{IsHeaderStop};
ghost use Rattle.text_lines.specs.inner.Reading.{IsCodeStop, code_from, codes_of, parts_of, region_from_text};
ghost use Rattle.text_lines.specs.Spelling.{IsHeader};

use crate::fault::{LineStop, TextKind};
use crate::scanner::{cut_at, is_word, titled_at};
use rule_tables::{Alpha2, Region};

/// The code that the bytes are.
#[tactic(auto, using(crate::proofs::Codes::codes_read), unfolding(crate::specs::inner::Reading::code_from))]
fn code_of(part: &[u8]) -> Option<Alpha2>
    ensures { MatchOption result (code_from part.now ≡ None) (λ code. code_from part.now ≡ Some code) }
{
    let [a, b] = part else { return None };
    let code = Alpha2 { a: *a, b: *b };
    if code.is_code() { Some(code) } else { None }
}

/// Puts the codes of the list, parted by commas, in place of what was held.
fn read_codes(list: &[u8], codes: &mut Vec<Alpha2>) -> Result<(), LineStop>
    ensures { MatchResult result (λ _. codes_of (parts_of 44 (Some list.now)) ≡ Some codes.new.items) (IsCodeStop list.now) }
{
    codes.clear();
    let mut left = Some(list);
    while let Some(text) = left {
        let (part, rest) = cut_at(text, b',');
        let Some(code) = code_of(part) else {
            return Err(LineStop::Kind(TextKind::BadCountry));
        };
        codes.push(code)?;
        left = rest;
    }
    Ok(())
}

/// The region of that name, unset where nothing is left.
#[tactic(auto, unfolding(crate::specs::inner::Reading::region_from_text))]
fn region_of(name: &[u8]) -> Option<Region>
    ensures { MatchOption result (region_from_text name.now ≡ None) (λ region. region_from_text name.now ≡ Some region) }
{
    if is_word(name, b"") {
        Some(Region::Unset)
    } else if is_word(name, b"DFS-FCC") {
        Some(Region::Fcc)
    } else if is_word(name, b"DFS-ETSI") {
        Some(Region::Etsi)
    } else if is_word(name, b"DFS-JP") {
        Some(Region::Jp)
    } else {
        None
    }
}

/// The region of a header, whose codes take the place of what was held, or what is wrong with it.
pub fn header_of(line: &[u8], codes: &mut Vec<Alpha2>) -> Result<Region, LineStop>
    ensures header { MatchResult result (λ region. IsHeader line.now codes.new.items region) (IsHeaderStop line.now) }
{
    let Some((list, rest)) = titled_at(line, b"country") else {
        return Err(LineStop::Kind(TextKind::BadCountry));
    };
    read_codes(list, codes)?;
    match region_of(rest) {
        Some(region) => Ok(region),
        None => Err(LineStop::Kind(TextKind::BadRegion)),
    }
}
