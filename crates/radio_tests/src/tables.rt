//! Tables of small lists of domains, whose rows were worked out by hand.

use crate::domains::{AUTO_BW, DFS, NO_OUTDOOR, domain, first, next, rule};
use freq_range::{Rule, RuleFlags};
use rule_intersect::{ResolveFault, Row, Table};
use rule_tables::Domain;
use std::alloc::Global;
use std::process::Abort;
use std::test::Fail;

/// A domain with so many rules of 2400 to 2472 MHz.
fn domain_of(alloc: Global, count: u16) -> Result<Domain, Fail> {
    let mut d = domain(alloc, &[])?;
    for k in 0..count {
        d.rules.push(rule(2400, 2472, 40, k, RuleFlags::NONE))?;
    }
    Ok(d)
}

/// The table of a list of domains that pass their checks.
fn table_of(alloc: Global, domains: &[Domain]) -> Result<Table, ResolveFault> {
    let Some((head, others)) = domains.split_first() else {
        return Err(ResolveFault::OutOfMemory);
    };
    let mut table = first(alloc, head)?;
    for domain in others {
        table = next(&table, domain)?;
    }
    Ok(table)
}

/// The list of domains is refused so.
fn is_refused(rt: &impl Abort, alloc: Global, domains: &[Domain], fault: ResolveFault) {
    match table_of(alloc, domains) {
        Ok(table) => assert!(rt; false, "{} rows", table.len()),
        Err(found) => assert!(rt; found == fault),
    }
}

/// The table has these rows and no more.
fn has_rows(rt: &impl Abort, table: &Table, rows: &[Row]) {
    assert!(rt; table.len() == rows.len());
    for (k, row) in rows.iter().enumerate() {
        assert!(rt; table.row(k) == Some(*row), "row {k}");
    }
    assert!(rt; table.row(rows.len()).is_none());
}

/// The United States: 2400 to 2472 MHz, and two touching rules from 5150 to 5350 MHz.
fn us() -> [Rule; 3] {
    [
        rule(2400, 2472, 40, 3000, RuleFlags::NONE),
        rule(5150, 5250, 80, 2300, AUTO_BW),
        rule(
            5250,
            5350,
            80,
            2400,
            RuleFlags {
                dfs: true,
                ..AUTO_BW
            },
        ),
    ]
}

/// Indoors, of the width of all touching rules.
const INDOORS: RuleFlags = RuleFlags {
    no_outdoor: true,
    ..AUTO_BW
};

/// Great Britain: 2400 to 2483.5 MHz, and two touching rules from 5150 to 5350 MHz, indoors.
fn gb() -> [Rule; 3] {
    [
        Rule {
            end_khz: 2_483_500,
            ..rule(2400, 2483, 40, 2000, RuleFlags::NONE)
        },
        rule(5150, 5250, 80, 2301, INDOORS),
        rule(
            5250,
            5350,
            80,
            2000,
            RuleFlags {
                dfs: true,
                ..INDOORS
            },
        ),
    ]
}

/// A row between these ends, in MHz, of this width, in MHz, and power, in mBm, without check times.
fn row(start: u16, end: u16, width: u16, eirp_mbm: u16, flags: RuleFlags) -> Row {
    Row {
        start_khz: u32::from(start) * 1000,
        end_khz: u32::from(end) * 1000,
        width_khz: u32::from(width) * 1000,
        flags,
        eirp_mbm,
        cac_ms: 0,
        check_ms: if flags.dfs { 60_000 } else { 0 },
    }
}

#[test]
fn a_country_and_custom_rules_keep_the_width_of_the_run(rt: HostRuntime) -> Result<(), Fail> {
    let alloc = rt.alloc();
    let custom = domain(alloc, &[rule(5150, 5350, 160, 2000, RuleFlags::NONE)])?;
    let table = next(&first(alloc, &domain(alloc, &us())?)?, &custom)?;
    let rows = [
        row(5150, 5250, 160, 2000, RuleFlags::NONE),
        row(5250, 5350, 160, 2000, DFS),
    ];
    has_rows(&rt, &table, &rows);
    let centres = [
        (5_180_000, Some(0)),
        (5_260_000, Some(1)),
        (5_250_000, None),
        (2_412_000, None),
    ];
    for (centre_khz, place) in centres {
        assert!(rt; table.row_for(centre_khz) == place, "at {centre_khz}");
    }
    Ok(())
}

#[test]
fn two_countries_join_their_powers_and_flags(rt: HostRuntime) -> Result<(), Fail> {
    let alloc = rt.alloc();
    let table = next(
        &first(alloc, &domain(alloc, &gb())?)?,
        &domain(alloc, &us())?,
    )?;
    let indoors_with_dfs = RuleFlags {
        dfs: true,
        ..NO_OUTDOOR
    };
    let rows = [
        row(2400, 2472, 40, 2000, RuleFlags::NONE),
        row(5150, 5250, 200, 2300, NO_OUTDOOR),
        row(5250, 5350, 200, 2000, indoors_with_dfs),
    ];
    has_rows(&rt, &table, &rows);
    assert!(rt; table.row_for(5_180_000) == Some(1));
    Ok(())
}

#[test]
fn the_least_prefix_with_too_many_rows_is_named(rt: HostRuntime) -> Result<(), Fail> {
    let alloc = rt.alloc();
    // The third domain isn't asked, as two have too many rows.
    let second_is_too_many = [
        domain_of(alloc, 33)?,
        domain_of(alloc, 32)?,
        domain_of(alloc, 2)?,
    ];
    let fault = ResolveFault::TooManyRows {
        after: 2,
        rows: 1056,
    };
    is_refused(&rt, alloc, &second_is_too_many[..2], fault);
    is_refused(&rt, alloc, &second_is_too_many, fault);
    let third_is_too_many = [
        domain_of(alloc, 32)?,
        domain_of(alloc, 32)?,
        domain_of(alloc, 2)?,
    ];
    assert!(rt; table_of(alloc, &third_is_too_many[..2])?.len() == 1024);
    let fault = ResolveFault::TooManyRows {
        after: 3,
        rows: 2048,
    };
    is_refused(&rt, alloc, &third_is_too_many, fault);
    Ok(())
}
