//! Rules and databases that several tests use.

ghost use Rattle.std.specs.Prelude.{◌≡◌};

use freq_range::{Rule, RuleFlags, RuleList, Wmm, WmmEntry};
use rule_tables::{Alpha2, Db, Domain, Region};
use std::alloc::Global;
use std::test::Fail;

/// An entry of a WMM rule.
fn entry(min_exp: u8, max_exp: u8, aifsn: u8, cot_ms: u16) -> WmmEntry {
    WmmEntry {
        min_exp,
        max_exp,
        aifsn,
        cot_ms,
    }
}

/// The WMM rule of the European countries.
pub fn etsi() -> Wmm {
    Wmm {
        vo_c: entry(2, 3, 2, 2),
        vi_c: entry(3, 4, 2, 4),
        be_c: entry(4, 10, 3, 6),
        bk_c: entry(4, 10, 7, 6),
        vo_ap: entry(2, 3, 1, 2),
        vi_ap: entry(3, 4, 1, 4),
        be_ap: entry(4, 6, 3, 6),
        bk_ap: entry(4, 10, 7, 6),
    }
}

/// A rule from 5150 to 5250 MHz, of 23.01 dBm.
pub fn rule(cac_s: u16, wmm: Option<Wmm>) -> Rule
    ensures time { result.cac_s ≡ cac_s }
    ensures wmm { result.wmm ≡ wmm }
{
    Rule {
        start_khz: 5_150_000,
        end_khz: 5_250_000,
        max_bw_khz: 80_000,
        flags: RuleFlags {
            no_outdoor: true,
            auto_bw: true,
            ..RuleFlags::NONE
        },
        eirp_mbm: 2301,
        cac_s,
        wmm,
    }
}

/// A database of these countries in the region of ETSI, each with these rules.
pub fn countries(alloc: Global, codes: &[Alpha2], rules: &[Rule]) -> Result<Db, Fail> {
    let mut db = Db::new(alloc);
    for alpha2 in codes {
        let mut list = RuleList::new(alloc);
        for rule in rules {
            list.push(*rule)?;
        }
        db.insert(Domain {
            alpha2: *alpha2,
            region: Region::Etsi,
            rules: list,
        })?;
    }
    Ok(db)
}
