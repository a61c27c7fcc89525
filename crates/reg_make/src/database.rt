//! The database that the requests run over.

ghost use Rattle.std.specs.Prelude.{◌≡◌, [], ◌∷◌, ◌++◌, IfOk, OnOk};
ghost use Rattle.rule_tables.specs.Databases.{IsDomain};
ghost use Rattle.reg_make.specs.Domains.{gb_domain, made_domains, made_flags, made_rule, us_domain};
ghost use Rattle.reg_make.specs.inner.Above.{IsAboveAll};

use crate::parts::country;
use freq_range::{Rule, RuleFlags, RuleList};
use reg_lists::OutOfMemory;
use rule_tables::{Db, Domain, Region};
use std::alloc::Global;

/// A rule with the usual length of a check for radar.
fn rule(start_khz: u32, end_khz: u32, max_bw_khz: u32, eirp_mbm: u16, flags: RuleFlags) -> Rule
    ensures { result ≡ made_rule start_khz end_khz max_bw_khz eirp_mbm flags }
{
    Rule {
        start_khz,
        end_khz,
        max_bw_khz,
        flags,
        eirp_mbm,
        cac_s: 0,
        wmm: None,
    }
}

/// These flags and no others.
fn flags(no_outdoor: bool, dfs: bool, auto_bw: bool) -> RuleFlags
    ensures { result ≡ made_flags no_outdoor dfs auto_bw }
{
    RuleFlags {
        no_outdoor,
        dfs,
        auto_bw,
        ..RuleFlags::NONE
    }
}

/// What US allows.
fn us_domain(alloc: Global) -> Result<Domain, OutOfMemory>
    ensures { IfOk result (λ domain. domain ≡ us_domain) }
{
    let mut rules = RuleList::new(alloc);
    rules.push(rule(
        2_400_000,
        2_472_000,
        40_000,
        3000,
        flags(false, false, false),
    ))?;
    rules.push(rule(
        5_150_000,
        5_250_000,
        80_000,
        2300,
        flags(false, false, true),
    ))?;
    rules.push(rule(5_250_000, 5_350_000, 80_000, 2400, flags(false, true, true)))?;
    Ok(Domain {
        alpha2: country(1),
        region: Region::Fcc,
        rules,
    })
}

/// What GB allows.
fn gb_domain(alloc: Global) -> Result<Domain, OutOfMemory>
    ensures { IfOk result (λ domain. domain ≡ gb_domain) }
{
    let mut rules = RuleList::new(alloc);
    rules.push(rule(
        2_400_000,
        2_483_500,
        40_000,
        2000,
        flags(false, false, false),
    ))?;
    rules.push(rule(5_150_000, 5_250_000, 80_000, 2301, flags(true, false, true)))?;
    rules.push(rule(5_250_000, 5_350_000, 80_000, 2000, flags(true, true, true)))?;
    Ok(Domain {
        alpha2: country(2),
        region: Region::Etsi,
        rules,
    })
}

/// Puts a domain behind all others.
#[tactic(auto, using(crate::proofs::DatabaseMade::fresh_above))]
fn put_last(db: &mut Db, domain: Domain) -> Result<(), OutOfMemory>
    requires above { IsAboveAll db.old domain }
    requires domain { IsDomain domain }
    ensures last { OnOk result (db.new ≡ db.old ++ domain ∷ []) }
{
    db.insert_new(domain)?;
    Ok(())
}

/// The database of the world, GB and US that the requests are made for.
#[tactic(auto, using(crate::proofs::DatabaseMade::world_is, crate::proofs::DatabaseMade::gb_is, crate::proofs::DatabaseMade::us_is, crate::proofs::DatabaseMade::above_none, crate::proofs::DatabaseMade::gb_above, crate::proofs::DatabaseMade::us_above))]
pub fn made_database(alloc: Global) -> Result<Db, OutOfMemory>
    ensures domains { IfOk result (λ db. db ≡ made_domains) }
{
    let mut db = Db::new(alloc);
    put_last(&mut db, Domain::world(alloc)?)?;
    put_last(&mut db, gb_domain(alloc)?)?;
    put_last(&mut db, us_domain(alloc)?)?;
    Ok(db)
}
