//! Printed texts, written out by hand from the format.

use crate::samples::{countries, rule};
use db_text::{PrintFault, parse, print, print_rule};
use freq_range::{Rule, RuleFlags};
use rule_tables::Alpha2;
use std::test::Fail;

/// A text that isn't laid out as printed ones are: WMM rules in another order, one under two names and
/// one that no rule uses, countries in another order, and other spellings of numbers.
const LOOSE: &str = "wmmrule unused:
vo_c:cw_min=0,cw_max=1,aifsn=1,cot=0
vi_c:cw_min=0,cw_max=1,aifsn=1,cot=0
be_c:cw_min=0,cw_max=1,aifsn=1,cot=0
bk_c:cw_min=0,cw_max=1,aifsn=1,cot=0
vo_ap:cw_min=0,cw_max=1,aifsn=1,cot=0
vi_ap:cw_min=0,cw_max=1,aifsn=1,cot=0
be_ap:cw_min=0,cw_max=1,aifsn=1,cot=0
bk_ap:cw_min=0,cw_max=1,aifsn=1,cot=0
wmmrule late:
bk_ap:cw_min=16383,cw_max=32767,aifsn=255,cot=65535
be_ap:cw_min=0,cw_max=1,aifsn=1,cot=0
vi_ap:cw_min=0,cw_max=1,aifsn=1,cot=0
vo_ap:cw_min=0,cw_max=1,aifsn=1,cot=0
bk_c:cw_min=0,cw_max=1,aifsn=1,cot=0
be_c:cw_min=0,cw_max=1,aifsn=1,cot=0
vi_c:cw_min=0,cw_max=1,aifsn=1,cot=0
vo_c:cw_min=3,cw_max=7,aifsn=2,cot=2
wmmrule early:
vo_c:cw_min=0,cw_max=1,aifsn=1,cot=0
vi_c:cw_min=3,cw_max=15,aifsn=2,cot=4
be_c:cw_min=0,cw_max=1,aifsn=1,cot=0
bk_c:cw_min=0,cw_max=1,aifsn=1,cot=0
vo_ap:cw_min=0,cw_max=1,aifsn=1,cot=0
vi_ap:cw_min=0,cw_max=1,aifsn=1,cot=0
be_ap:cw_min=0,cw_max=1,aifsn=1,cot=0
bk_ap:cw_min=0,cw_max=1,aifsn=1,cot=0
wmmrule again:
vo_c:cw_min=0,cw_max=1,aifsn=1,cot=0
vi_c:cw_min=3,cw_max=15,aifsn=2,cot=4
be_c:cw_min=0,cw_max=1,aifsn=1,cot=0
bk_c:cw_min=0,cw_max=1,aifsn=1,cot=0
vo_ap:cw_min=0,cw_max=1,aifsn=1,cot=0
vi_ap:cw_min=0,cw_max=1,aifsn=1,cot=0
be_ap:cw_min=0,cw_max=1,aifsn=1,cot=0
bk_ap:cw_min=0,cw_max=1,aifsn=1,cot=0
country US: DFS-FCC
(5150.000 - 5250 @ 80), (23.00), wmmrule=late, AUTO-BW
(5250 - 5330 @ 80), (23.01), wmmrule=again
(5490 - 5730 @ 160), (24), NO-IR, AUTO-BW, DFS, NO-OUTDOOR, NO-OFDM
country 00:
(2402.500 - 2472.01 @ 40.125), (0.1), wmmrule=early
";

/// The printed text of the same database.
const PRINTED: &str = "wmmrule w0:
\tvo_c: cw_min=0, cw_max=1, aifsn=1, cot=0
\tvi_c: cw_min=3, cw_max=15, aifsn=2, cot=4
\tbe_c: cw_min=0, cw_max=1, aifsn=1, cot=0
\tbk_c: cw_min=0, cw_max=1, aifsn=1, cot=0
\tvo_ap: cw_min=0, cw_max=1, aifsn=1, cot=0
\tvi_ap: cw_min=0, cw_max=1, aifsn=1, cot=0
\tbe_ap: cw_min=0, cw_max=1, aifsn=1, cot=0
\tbk_ap: cw_min=0, cw_max=1, aifsn=1, cot=0
wmmrule w1:
\tvo_c: cw_min=3, cw_max=7, aifsn=2, cot=2
\tvi_c: cw_min=0, cw_max=1, aifsn=1, cot=0
\tbe_c: cw_min=0, cw_max=1, aifsn=1, cot=0
\tbk_c: cw_min=0, cw_max=1, aifsn=1, cot=0
\tvo_ap: cw_min=0, cw_max=1, aifsn=1, cot=0
\tvi_ap: cw_min=0, cw_max=1, aifsn=1, cot=0
\tbe_ap: cw_min=0, cw_max=1, aifsn=1, cot=0
\tbk_ap: cw_min=16383, cw_max=32767, aifsn=255, cot=65535
country 00:
\t(2402.5 - 2472.01 @ 40.125), (0.1), wmmrule=w0
country US: DFS-FCC
\t(5150 - 5250 @ 80), (23), AUTO-BW, wmmrule=w1
\t(5250 - 5330 @ 80), (23.01), wmmrule=w0
\t(5490 - 5730 @ 160), (24), NO-OFDM, NO-OUTDOOR, DFS, AUTO-BW, NO-IR
";

#[test]
fn a_database_is_printed_and_read_again(rt: HostRuntime) -> Result<(), Fail> {
    for text in [LOOSE, PRINTED] {
        let db = parse(rt.alloc(), text.as_bytes())?;
        let out = print(rt.alloc(), &db)?;
        assert!(rt; out.as_slice() == PRINTED.as_bytes());
    }
    Ok(())
}

#[test]
fn a_rule_is_printed(rt: HostRuntime) -> Result<(), Fail> {
    let flagged = rule(0, None);
    let out = print_rule(rt.alloc(), &flagged)?;
    let line = b"(5150 - 5250 @ 80), (23.01), NO-OUTDOOR, AUTO-BW";
    assert!(rt; out.as_slice() == line.as_slice());
    let plain = Rule {
        end_khz: 5_350_000,
        max_bw_khz: 160_000,
        flags: RuleFlags::NONE,
        eirp_mbm: 2000,
        ..flagged
    };
    let out = print_rule(rt.alloc(), &plain)?;
    assert!(rt; out.as_slice() == b"(5150 - 5350 @ 160), (20)".as_slice());
    Ok(())
}

#[test]
fn a_check_time_is_refused(rt: HostRuntime) -> Result<(), Fail> {
    let country = Alpha2 { a: b'D', b: b'E' };
    let codes = [Alpha2 { a: b'U', b: b'S' }, country];
    let rules = [rule(0, None), rule(60, None), rule(1, None)];
    let db = countries(rt.alloc(), &codes, &rules)?;
    let fault = print(rt.alloc(), &db).err();
    assert!(rt; fault == Some(PrintFault::CacTime { country, rule: 1 }));
    Ok(())
}
