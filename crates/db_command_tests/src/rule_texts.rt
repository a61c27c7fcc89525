//! What texts say: powers, several countries, WMM rules, and one rule by itself.

use crate::calls::give;
use crate::samples::{DE_FILE, GB_FILE, US_FILE};
use db_commands::Conversion;
use db_text::parse_rule;
use freq_range::{Rule, RuleFlags, mw_to_mbm};
use std::test::Fail;

/// The items of a WMM rule.
const ITEMS: &str = "  vo_c: cw_min=3, cw_max=7, aifsn=2, cot=2
  vi_c: cw_min=7, cw_max=15, aifsn=2, cot=4
  be_c: cw_min=15, cw_max=1023, aifsn=3, cot=6
  bk_c: cw_min=15, cw_max=1023, aifsn=7, cot=6
  vo_ap: cw_min=3, cw_max=7, aifsn=1, cot=2
  vi_ap: cw_min=7, cw_max=15, aifsn=1, cot=4
  be_ap: cw_min=15, cw_max=63, aifsn=3, cot=6
  bk_ap: cw_min=15, cw_max=1023, aifsn=7, cot=6
";

/// The items of another, in another order, at the limits of their numbers.
const OTHER_ITEMS: &str = "bk_ap: cw_min=0, cw_max=1, aifsn=255, cot=65535
be_ap: cw_min=16383, cw_max=32767, aifsn=1, cot=0
vi_ap: cw_min=0, cw_max=01, aifsn=1, cot=0
vo_ap: cw_min=0, cw_max=1, aifsn=1, cot=0
bk_c: cw_min=0, cw_max=1, aifsn=1, cot=0
be_c: cw_min=0, cw_max=1, aifsn=1, cot=0
vi_c: cw_min=0, cw_max=1, aifsn=1, cot=0
vo_c: cw_min=0, cw_max=1, aifsn=1, cot=0
";

/// A country with a rule that names the first WMM rule.
const DE: &str =
    "country DE: DFS-ETSI\n\t(5150 - 5250 @ 80), (200 mW), NO-OUTDOOR, AUTO-BW, wmmrule=ETSI\n";

#[test]
fn milliwatts_and_decimals_give_their_bytes(rt: HostRuntime) -> Result<(), Fail> {
    let rows: [(&[u8], &[u8]); 4] = [
        (
            b"country GB: DFS-ETSI\n(2400 - 2483.5 @ 40), (200 mW)\n",
            &GB_FILE,
        ),
        (
            b"country GB: DFS-ETSI\n(2400.000 - 2483.50 @ 40.0), (N/A, 00200 m W)\n",
            &GB_FILE,
        ),
        (
            b"country GB: DFS-ETSI\n(2400 - 2483.500 @ 40), (0, 23.01)\n",
            &GB_FILE,
        ),
        (
            b"country GB: DFS-ETSI\n(2400 - 2483.5 @ 40), (23.01)",
            &GB_FILE,
        ),
    ];
    give(&rt, rt.alloc(), Conversion::Compile, &rows)
}

// A WMM rule that no rule names isn't kept. Equal WMM rules of two names make equal rules, and one
// record.
#[test]
fn wmm_rules_give_their_bytes(rt: HostRuntime) -> Result<(), Fail> {
    let unused = format!(in rt.alloc();
        "# an example\nwmmrule ETSI:\n{ITEMS}\nwmmrule un_used-1:\n{OTHER_ITEMS}\n{DE}"
    )?;
    let again = "(5150 - 5250 @ 80), (23.01), wmmrule=SAME, AUTO-BW, NO-OUTDOOR, AUTO-BW";
    let equal = format!(in rt.alloc();
        "wmmrule ETSI:\n{ITEMS}wmmrule SAME:\n{ITEMS}{DE}{again}\n"
    )?;
    let rows: [(&[u8], &[u8]); 2] = [(unused.as_bytes(), &DE_FILE), (equal.as_bytes(), &DE_FILE)];
    give(&rt, rt.alloc(), Conversion::Compile, &rows)
}

// A country that is named again has the rules of all its blocks, each once.
#[test]
fn countries_may_be_named_again(rt: HostRuntime) -> Result<(), Fail> {
    let rows: [(&[u8], &[u8]); 3] = [
        (
            b"country US, US: DFS-FCC\n(2400 - 2472 @ 40), (30)\n",
            &US_FILE,
        ),
        (
            b"country US: DFS-FCC\n(2400 - 2472 @ 40), (30)\n(2400 - 2472 @ 40), (30.0)\n",
            &US_FILE,
        ),
        (
            b"country US: DFS-FCC\n\ncountry US: DFS-FCC\n(2400 - 2472 @ 40), (30)\ncountry US: DFS-FCC\n(2400 - 2472 @ 40), (1000 mW)\n",
            &US_FILE,
        ),
    ];
    give(&rt, rt.alloc(), Conversion::Compile, &rows)
}

#[test]
fn one_rule_is_read_by_itself(rt: HostRuntime) -> Result<(), Fail> {
    let flags = RuleFlags {
        dfs: true,
        ..RuleFlags::NONE
    };
    let rule = Rule {
        start_khz: 5_150_000,
        end_khz: 5_350_000,
        max_bw_khz: 160_000,
        flags,
        eirp_mbm: 2000,
        cac_s: 0,
        wmm: None,
    };
    let texts: [&[u8]; 3] = [
        b"(5150 - 5350 @ 160), (20), DFS",
        b"\t( 5150 - 5350 @ 160 ) , ( 100 mW ) , D F S, DFS # why\r\n",
        b"(5150-5350@160),(20.00),DFS",
    ];
    for (row, text) in texts.iter().enumerate() {
        let answer = parse_rule(rt.alloc(), text);
        assert!(rt; answer == Ok(rule), "row {row}");
    }
    Ok(())
}

#[test]
fn milliwatts_have_their_values(rt: HostRuntime) {
    for (milliwatts, mbm) in [
        (1, 0),
        (10, 1000),
        (25, 1397),
        (100, 2000),
        (200, 2301),
        (500, 2698),
        (1000, 3000),
        (1_000_000, 6000),
    ] {
        assert!(rt; mw_to_mbm(milliwatts) == Some(mbm), "for {milliwatts} mW");
    }
    for milliwatts in [0, 1_000_001, u32::MAX] {
        assert!(rt; mw_to_mbm(milliwatts).is_none(), "for {milliwatts} mW");
    }
}
