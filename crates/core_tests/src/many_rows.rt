//! Custom rules of which too many pairs with the country's overlap.

use crate::calls::{Way, follow, opened};
use reg_base::Bytes;
use reg_lists::OutOfMemory;
use std::test::Fail;

const BEFORE: &[u8] = b"> radio add phy0 bands 2 width 40 radar 0 power 3000 contexts 1
ok
> iw phy phy0 interface add ap0 type __ap
ok
> iw reg set AA
hint replaced
";

const FIRST_OF_32: &[u8] = b"> radio rules phy0 (2400 - 2472 @ 40), (5)";

/// The radio has no custom rules: the first one would have had a power of 500 mBm.
const REFUSED: &[u8] = b"
refused: too many rows 1056
> iw dev ap0 ap start home 2412 100 2
started 1000
";

/// Puts the rule so often, with a power from 10 dBm on.
fn put_rules(text: &mut Bytes, rule: [u8; 26], count: u8) -> Result<(), OutOfMemory> {
    for k in 0..count {
        let mut rule = rule;
        rule[23] = b'1' + k / 10;
        rule[24] = b'0' + k % 10;
        text.append(&rule)?;
    }
    Ok(())
}

/// Custom rules that are refused, and a start behind them.
fn put_transcript(transcript: &mut Bytes) -> Result<(), OutOfMemory> {
    transcript.append(FIRST_OF_32)?;
    put_rules(transcript, *b"; (2400 - 2472 @ 40), (10)", 31)?;
    transcript.append(REFUSED)
}

#[test]
fn custom_rules_that_make_too_many_rows(rt: HostRuntime) -> Result<(), Fail> {
    let alloc = rt.alloc();
    let mut text = Bytes::new(alloc);
    text.append(b"country AA:")?;
    put_rules(&mut text, *b"\n\t(2400 - 2472 @ 40), (10)", 33)?;
    let mut transcript = Bytes::new(alloc);
    put_transcript(&mut transcript)?;
    let (mut core, mut drivers) = opened(alloc, text.as_slice(), &[])?;
    let before = follow(alloc, Way::Step, &mut core, BEFORE, &mut drivers)?;
    let then = follow(
        alloc,
        Way::Step,
        &mut core,
        transcript.as_slice(),
        &mut drivers,
    )?;
    assert!(rt; before && then);
    Ok(())
}
