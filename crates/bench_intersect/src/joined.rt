//! Joins domains.

use crate::count::Count;
use crate::stop::Stop;
use rule_intersect::{MOST_DOMAINS, Table};
use rule_tables::Domain;
use std::alloc::Global;

/// How often the domains are joined.
pub(crate) const ROUNDS: u32 = 10_000;

/// The table with the domain at its end.
fn join_one(table: &Table, domain: &Domain) -> Result<Table, Stop> {
    domain.check()?;
    if table.domains() >= MOST_DOMAINS {
        return Err(Stop);
    }
    Ok(table.next(domain)?)
}

/// Joins all the domains, one after another. A pair is a row and a rule.
fn join_all(alloc: Global, domains: &[Domain]) -> Result<Count, Stop> {
    let Some((first, others)) = domains.split_first() else {
        return Err(Stop);
    };
    first.check()?;
    let mut table = Table::first(alloc, first)?;
    let mut count = Count::NONE;
    for domain in others {
        let joined = join_one(&table, domain)?;
        count = count.and(&Count {
            pairs: (table.len() as u64).saturating_mul(domain.rules.len() as u64),
            found: joined.len() as u64,
        });
        table = joined;
    }
    Ok(count)
}

/// Joins all the domains many times.
pub(crate) fn join_often(alloc: Global, domains: &[Domain]) -> Result<Count, Stop> {
    let mut count = Count::NONE;
    for _round in 0..ROUNDS {
        count = count.and(&join_all(alloc, domains)?);
    }
    Ok(count)
}
