//! The domain of the world where a database has none, and that of custom rules.

ghost use Rattle.std.specs.Prelude.{◌≡◌, IfOk};
ghost use Rattle.rule_tables.specs.World.{custom_domain, world_domain, world_flags, world_rule};

use crate::code::{Alpha2, Region};
use crate::domain::Domain;
use freq_range::{Rule, RuleFlags, RuleList};
use reg_lists::OutOfMemory;
use std::alloc::Global;

/// The power of each rule of the world's domain, in mBm.
const WORLD_EIRP_MBM: u16 = 2000;

/// A rule of the world's domain, with these flags beside none.
fn world_rule(
    start_khz: u32,
    end_khz: u32,
    max_bw_khz: u32,
    dfs: bool,
    no_ir: bool,
    auto_bw: bool,
) -> Rule
    ensures rule { result ≡ world_rule start_khz end_khz max_bw_khz (world_flags dfs no_ir auto_bw) }
{
    Rule {
        start_khz,
        end_khz,
        max_bw_khz,
        flags: RuleFlags {
            dfs,
            no_ir,
            auto_bw,
            ..RuleFlags::NONE
        },
        eirp_mbm: WORLD_EIRP_MBM,
        cac_s: 0,
        wmm: None,
    }
}

impl Domain {
    /// What holds for the world where a database doesn't say (`world_regdom` of cfg80211).
    pub fn world(alloc: Global) -> Result<Domain, OutOfMemory>
        ensures domain { IfOk result (λ domain. domain ≡ world_domain) }
    {
        let mut rules = RuleList::new(alloc);
        rules.push(world_rule(2_402_000, 2_472_000, 40_000, false, false, false))?;
        rules.push(world_rule(5_170_000, 5_250_000, 80_000, false, true, true))?;
        rules.push(world_rule(5_250_000, 5_330_000, 80_000, true, true, true))?;
        Ok(Domain {
            alpha2: Alpha2::WORLD,
            region: Region::Unset,
            rules,
        })
    }

    /// A radio's custom rules as a domain. Without rules it permits nothing.
    pub fn custom(rules: RuleList) -> Domain
        ensures domain { result ≡ custom_domain rules }
    {
        Domain {
            alpha2: Alpha2::CUSTOM,
            region: Region::Unset,
            rules,
        }
    }
}
