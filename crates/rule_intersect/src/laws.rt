//! Laws over all tables.

ghost use Rattle.std.specs.Prelude.{◌≡◌, ◌<◌, ◌≤◌, ◌⊎◌, ℕ, List, length, All};
ghost use Rattle.freq_range.specs.Valid.{IsValidRule};
ghost use Rattle.rule_tables.specs.declared.domain.Domain.{Domain};
ghost use Rattle.rule_intersect.specs.Subchannels.{EachHasRule, IsFirstRow, IsGoverningRow};
ghost use Rattle.rule_intersect.specs.Tables.{IsTableOf, IsTooMany, Joined};

/// The first row that holds a channel of 20 MHz is the row of the first rule of every domain that
/// holds it, and there is such a row exactly where each domain has such a rule.
pub fn first_row_is_that_of_all_domains()
    ensures row { (ds : List Domain) (table : Joined) (centre k : ℕ)
        → IsTableOf ds table → IsFirstRow table.rows centre k → IsGoverningRow ds table.rows centre k }
    ensures only { (ds : List Domain) (table : Joined) (centre k : ℕ)
        → IsTableOf ds table → IsFirstRow table.rows centre k → EachHasRule ds centre }
    ensures some { (ds : List Domain) (table : Joined) (centre : ℕ)
        → IsTableOf ds table → EachHasRule ds centre → (k : ℕ) × IsFirstRow table.rows centre k }
{}

/// A list of domains has one table, or one least prefix with more than 1,024 rows, and not both. Each
/// domain has at most 128 rules, all valid, or none, as the one that permits nothing.
pub fn one_table()
    ensures some { (ds : List Domain) → 0 < length ds → All (λ d. All IsValidRule d.rules) ds → All (λ d. length d.rules ≤ 128) ds
        → ((table : Joined) × IsTableOf ds table) ⊎ ((after : ℕ) × (n : ℕ) × IsTooMany ds after n) }
    ensures table { (ds : List Domain) (one other : Joined) → IsTableOf ds one → IsTableOf ds other → one ≡ other }
    ensures fault { (ds : List Domain) (after m other n : ℕ)
        → IsTooMany ds after m → IsTooMany ds other n → (after ≡ other) × (m ≡ n) }
    ensures either { (ds : List Domain) (table : Joined) (after n : ℕ) → IsTableOf ds table → IsTooMany ds after n → ⊥ }
{}
