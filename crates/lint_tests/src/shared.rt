//! What two countries allow together, worked out by hand.

use db_lint::{Common, CommonList, common};
use db_text::parse;
use freq_range::RuleFlags;
use rule_tables::Alpha2;
use std::test::Fail;

/// Two countries with the same bands, other powers and other flags.
const TEXT: &str = "country US: DFS-FCC
(2400 - 2472 @ 40), (30)
(5150 - 5250 @ 80), (23), AUTO-BW
(5250 - 5350 @ 80), (24), DFS, AUTO-BW
country GB: DFS-ETSI
(2400 - 2483.5 @ 40), (100 mW)
(5150 - 5250 @ 80), (200 mW), NO-OUTDOOR, AUTO-BW
(5250 - 5350 @ 80), (100 mW), NO-OUTDOOR, DFS, AUTO-BW
";

#[test]
fn two_countries_have_their_common_channels(rt: HostRuntime) -> Result<(), Fail> {
    let db = parse(rt.alloc(), TEXT.as_bytes())?;
    let us = Alpha2 { a: b'U', b: b'S' };
    let gb = Alpha2 { a: b'G', b: b'B' };
    let list = match (db.find(us), db.find(gb)) {
        (Some(one), Some(other)) => common(rt.alloc(), one, other)?,
        _ => CommonList::new(rt.alloc()),
    };
    assert!(rt; list.len() == 19);
    let first = Common {
        khz: 2_412_000,
        width_khz: 40_000,
        eirp_mbm: 2000,
        flags: RuleFlags::NONE,
    };
    let indoors = RuleFlags {
        no_outdoor: true,
        ..RuleFlags::NONE
    };
    let twelfth = Common {
        khz: 5_180_000,
        width_khz: 200_000,
        eirp_mbm: 2300,
        flags: indoors,
    };
    let sixteenth = Common {
        khz: 5_260_000,
        eirp_mbm: 2000,
        flags: RuleFlags {
            dfs: true,
            ..indoors
        },
        ..twelfth
    };
    assert!(rt; list.get(0).copied() == Some(first));
    assert!(rt; list.get(11).copied() == Some(twelfth));
    assert!(rt; list.get(15).copied() == Some(sixteenth));
    Ok(())
}
