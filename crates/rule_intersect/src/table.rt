//! The rows of a list of domains.

ghost use Rattle.std.specs.Prelude.{◌≡◌, ◌==◌, ◌+◌, ◌<◌, ◌≤◌, ◌∷◌, ◌++◌, [], List, All, IfErr, IfOk, MatchOption, MatchResult, length, slice_get};
ghost use Rattle.freq_range.specs.Valid.{IsValidRule};
ghost use Rattle.rule_tables.specs.declared.domain.Domain.{Domain};
ghost use Rattle.rule_intersect.specs.Subchannels.{IsFirstRow, IsGoverningRow, NoRowHolds, SomeLacksRule};
ghost use Rattle.rule_intersect.specs.Tables.{IsResolveFault, IsTableOf};
ghost use Rattle.rule_intersect.specs.declared.fault.ResolveFault.TheVariants.{OutOfMemory};

use crate::fault::ResolveFault;
use crate::joining::{count_all, first_holding, join_rows, own_rows};
use crate::row::Row;
use rule_tables::Domain;
use std::alloc::Global;
use std::marker::Model;

/// The most rows of a table.
pub const MOST_ROWS: usize = 1024;

/// The most domains that a table joins.
pub const MOST_DOMAINS: usize = 1024;

/// What a list of domains allows together (`regdom_intersect`): a row for each tuple of one rule of
/// each domain with a common range, in the order of the rule numbers, the first domain's first.
#[derive(Debug, Drop)]
pub struct Table {
    rows: Vec<Row>,
    domains: usize,
}

impl Model for Table {
    ghost use Rattle.std.specs.Prelude.{◌≤◌, length};
    ghost use Rattle.rule_intersect.specs.Tables.{Joined};
    ghost use Rattle.rule_intersect.specs.declared.table.TheConstants.{MOST_ROWS};

    ghost Value = { Joined };

    ghost view = { λ t. record { rows = t.rows.items; domains = t.domains } };

    ghost invariant = { λ t. length t.rows.items ≤ MOST_ROWS };
}

impl Table {
    /// The table of a domain alone. `OutOfMemory` is its one fault, since a domain has at most 128
    /// rows.
    pub fn first(alloc: Global, d: &Domain) -> Result<Table, ResolveFault>
        requires valid { All IsValidRule d.now.rules }
        requires few { length d.now.rules ≤ 128 }
        ensures table { MatchResult result (IsTableOf (d.now ∷ [])) (IsResolveFault (d.now ∷ [])) }
        ensures domains { IfOk result (λ t. t.domains ≡ 1) }
        ensures err { IfErr result (λ fault. fault ≡ OutOfMemory) }
    {
        let rows = own_rows(alloc, d.rules.as_slice())?;
        Ok(Table { rows, domains: 1 })
    }

    /// The table of the list of domains of which this is the table, with one more domain at its end.
    /// `TooManyRows` comes exactly where the longer list has more than 1,024 rows, and takes no memory.
    /// After each fault this table is as before.
    pub fn next(&self, d: &Domain) -> Result<Table, ResolveFault>
        requires valid { All IsValidRule d.now.rules }
        requires few { length d.now.rules ≤ 128 }
        requires room { self.now.domains < MOST_DOMAINS }
        ensures table { (ds : List Domain) → IsTableOf ds self.now
            → MatchResult result (IsTableOf (ds ++ d.now ∷ [])) (IsResolveFault (ds ++ d.now ∷ [])) }
        ensures domains { IfOk result (λ t. t.domains ≡ self.now.domains + 1) }
    {
        let alloc = *self.rows.allocator();
        let count = count_all(self.rows.as_slice(), d.rules.as_slice());
        let domains = self.domains + 1;
        if count > MOST_ROWS {
            return Err(ResolveFault::TooManyRows {
                after: domains,
                rows: count,
            });
        }
        let own = own_rows(alloc, d.rules.as_slice())?;
        let rows = join_rows(alloc, count, self.rows.as_slice(), own.as_slice())?;
        Ok(Table { rows, domains })
    }

    /// The first row whose range holds the channel of 20 MHz round this centre, in kHz. It is the
    /// row of each domain's governing rule, and `None` exactly where some domain has no rule that
    /// holds the channel.
    pub fn row_for(&self, centre_khz: u32) -> Option<usize>
        ensures row { MatchOption result (NoRowHolds self.now.rows centre_khz) (IsFirstRow self.now.rows centre_khz) }
        ensures law { (ds : List Domain) → IsTableOf ds self.now
            → MatchOption result (SomeLacksRule ds centre_khz) (IsGoverningRow ds self.now.rows centre_khz) }
    {
        first_holding(self.rows.as_slice(), centre_khz)
    }

    /// How many domains it joins.
    pub fn domains(&self) -> usize
        ensures domains { result ≡ self.now.domains }
    {
        self.domains
    }

    /// How many rows there are.
    pub fn len(&self) -> usize
        ensures len { result ≡ length self.now.rows }
        ensures few { result ≤ MOST_ROWS }
    {
        self.rows.len()
    }

    /// Whether there is none.
    pub fn is_empty(&self) -> bool
        ensures empty { result ≡ (length self.now.rows == 0) }
    {
        self.rows.is_empty()
    }

    /// The row at place `k`, counted from 0, or `None` past the end.
    pub fn row(&self, k: usize) -> Option<Row>
        ensures row { result ≡ slice_get self.now.rows k }
    {
        self.rows.get(k).copied()
    }
}
