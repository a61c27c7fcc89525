//! Small domains and their tables.

use freq_range::{Rule, RuleFlags, RuleList};
use rule_intersect::{MOST_DOMAINS, ResolveFault, Table};
use rule_tables::{Alpha2, Domain, Region};
use std::alloc::Global;
use std::test::Fail;

pub(crate) const AUTO_BW: RuleFlags = RuleFlags {
    auto_bw: true,
    ..RuleFlags::NONE
};

pub(crate) const DFS: RuleFlags = RuleFlags {
    dfs: true,
    ..RuleFlags::NONE
};

pub(crate) const NO_IR: RuleFlags = RuleFlags {
    no_ir: true,
    ..RuleFlags::NONE
};

pub(crate) const NO_OFDM: RuleFlags = RuleFlags {
    no_ofdm: true,
    ..RuleFlags::NONE
};

pub(crate) const NO_OUTDOOR: RuleFlags = RuleFlags {
    no_outdoor: true,
    ..RuleFlags::NONE
};

/// A rule between these ends, in MHz, of this width, in MHz, and power, in mBm, without a check time.
pub(crate) fn rule(start: u16, end: u16, width: u16, eirp_mbm: u16, flags: RuleFlags) -> Rule {
    Rule {
        start_khz: u32::from(start) * 1000,
        end_khz: u32::from(end) * 1000,
        max_bw_khz: u32::from(width) * 1000,
        flags,
        eirp_mbm,
        cac_s: 0,
        wmm: None,
    }
}

/// A domain with these rules.
pub(crate) fn domain(alloc: Global, rules: &[Rule]) -> Result<Domain, Fail> {
    let mut list = RuleList::new(alloc);
    for rule in rules {
        list.push(*rule)?;
    }
    Ok(Domain {
        alpha2: Alpha2::JOINED,
        region: Region::Unset,
        rules: list,
    })
}

/// The table of a domain that passes its check.
pub(crate) fn first(alloc: Global, d: &Domain) -> Result<Table, ResolveFault> {
    match d.check() {
        Ok(()) => Table::first(alloc, d),
        Err(_bad) => Err(ResolveFault::OutOfMemory),
    }
}

/// The table with a domain more that passes its check.
pub(crate) fn next(table: &Table, d: &Domain) -> Result<Table, ResolveFault> {
    match d.check() {
        Ok(()) if table.domains() < MOST_DOMAINS => table.next(d),
        _ => Err(ResolveFault::OutOfMemory),
    }
}
