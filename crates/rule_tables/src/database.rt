//! A database: domains in ascending order of their codes.

ghost use Rattle.std.specs.Prelude.{◌≡◌, ◌==◌, ◌<◌, ◌≤◌, ℕ, [], AllPairs, Contains, IfErr, OnErr, OnOk, MatchOption, length, slice_get, slice_index_or};
ghost use Rattle.std.specs.Option.{option_copied};
ghost use Rattle.freq_range.specs.First.{IsFirst};
ghost use Rattle.rule_tables.specs.Code.{key};
ghost use Rattle.rule_tables.specs.Domains.{AreDistinct};
ghost use Rattle.rule_tables.specs.Databases.{IsDb, IsDomain, HasCode, IsRepeatedAt, IsInsertFault, Inserts};
ghost use Rattle.rule_tables.specs.declared.domain.Domain.{Domain};

use crate::code::Alpha2;
use crate::domain::{Domain, DomainFault};
use freq_range::{Rule, contains_rule};
use reg_lists::OutOfMemory;
use std::alloc::{AllocFailed, Global};
use std::marker::Model;
use thiserror::Error;

/// Why a domain isn't taken into a database.
#[derive(Clone, Copy, Debug, PartialEq, Eq, Error)]
pub enum DbInsertFault {
    /// A domain of this code is there.
    #[error("the code is there")]
    Twice,
    /// The code is neither two capital letters nor `00`.
    #[error("not a code")]
    BadCode,
    /// The first rule that equals an earlier one, counted from 0.
    #[error("rule {0} is repeated")]
    Repeated(usize),
    /// The rules aren't those of a domain.
    #[error("bad domain: {0}")]
    Bad(DomainFault),
    /// No memory was found.
    #[error("no memory")]
    OutOfMemory,
}

/// Domains in ascending order of their codes, each code once, each domain with 1 to 128 distinct
/// valid rules.
#[derive(Debug, Drop)]
pub struct Db {
    domains: Vec<Domain>,
}

impl Model for Db {
    ghost use Rattle.std.specs.Prelude.{List};
    ghost use Rattle.rule_tables.specs.declared.domain.Domain.{Domain};

    ghost Value = { List Domain };

    ghost view = { λ d. d.domains.items };

    ghost use Rattle.rule_tables.specs.Databases.{IsDb};

    ghost invariant = { λ d. IsDb d.domains.items };
}

/// The first rule that equals an earlier one, counted from 0.
fn first_repeated(rules: &[Rule]) -> Option<usize>
    ensures { MatchOption result (AreDistinct rules.now) (IsFirst (IsRepeatedAt rules.now)) }
{
    for (k, rule) in rules.iter().enumerate() {
        if contains_rule(&rules[..k], rule) {
            return Some(k);
        }
    }
    None
}

/// The place of the first domain whose code isn't below this one, or the number of domains.
fn place_of(domains: &[Domain], alpha2: &Alpha2) -> usize
    requires { AllPairs (λ c d. key c.alpha2 < key d.alpha2) domains.now }
    ensures within { result ≤ length domains.now }
    ensures below { (k : ℕ) (d : Domain) → k < result → key (slice_index_or domains.now k d).alpha2 < key alpha2.now }
    ensures at { (d : Domain) → result < length domains.now → key alpha2.now ≤ key (slice_index_or domains.now result d).alpha2 }
{
    let key = alpha2.key();
    domains.partition_point(|domain| domain.alpha2.key() < key)
}

/// The domain of this code.
fn find_in(domains: &[Domain], alpha2: Alpha2) -> Option<&Domain>
    requires { AllPairs (λ c d. key c.alpha2 < key d.alpha2) domains.now }
    ensures { MatchOption result (HasCode domains.now alpha2 → ⊥) (λ d. Contains domains.now d.now × (d.now.alpha2 ≡ alpha2)) }
{
    let place = place_of(domains, &alpha2);
    if place == domains.len() {
        return None;
    }
    let domain = &domains[place];
    if !domain.alpha2.is_same(&alpha2) {
        return None;
    }
    Some(domain)
}

/// Why the domain isn't taken among these, if anything speaks against it.
fn refusal(domains: &[Domain], domain: &Domain) -> Option<DbInsertFault>
    requires { AllPairs (λ c d. key c.alpha2 < key d.alpha2) domains.now }
    ensures { MatchOption result
        ((HasCode domains.now domain.now.alpha2 → ⊥) × IsDomain domain.now)
        (IsInsertFault domains.now domain.now) }
{
    if find_in(domains, domain.alpha2).is_some() {
        return Some(DbInsertFault::Twice);
    }
    if !domain.alpha2.is_code() {
        return Some(DbInsertFault::BadCode);
    }
    if let Some(k) = first_repeated(domain.rules.as_slice()) {
        return Some(DbInsertFault::Repeated(k));
    }
    match domain.check() {
        Err(fault) => Some(DbInsertFault::Bad(fault)),
        Ok(()) => None,
    }
}

impl Db {
    /// No domains. It takes no memory until the first one comes.
    pub fn new(alloc: Global) -> Db
        ensures empty { result ≡ [] }
        ensures db { IsDb result }
    {
        Db {
            domains: Vec::new(alloc),
        }
    }

    /// Puts the domain in its place, or refuses it by the first of `Twice`, `BadCode`, `Repeated`,
    /// `Bad` that applies, and by `OutOfMemory` only where none does. A refusal changes nothing.
    pub fn insert(&mut self, domain: Domain) -> Result<(), DbInsertFault>
        ensures ok { OnOk result (Inserts self.old self.new domain) }
        ensures cause { IfErr result (IsInsertFault self.old domain) }
        ensures err { OnErr result (self.new ≡ self.old) }
        ensures db { IsDb self.new }
    {
        if let Some(fault) = refusal(self.domains.as_slice(), &domain) {
            return Err(fault);
        }
        match self.insert_new(domain) {
            Ok(()) => Ok(()),
            Err(_none) => Err(DbInsertFault::OutOfMemory),
        }
    }

    /// Puts a domain of a new code in its place. Memory alone may refuse it, which changes nothing.
    /// What the caller has shown of the domain isn't tested once more.
    pub fn insert_new(&mut self, domain: Domain) -> Result<(), OutOfMemory>
        requires fresh { HasCode self.old domain.alpha2 → ⊥ }
        requires domain { IsDomain domain }
        ensures ok { OnOk result (Inserts self.old self.new domain) }
        ensures err { OnErr result (self.new ≡ self.old) }
        ensures db { IsDb self.new }
    {
        let place = place_of(self.domains.as_slice(), &domain.alpha2);
        match self.domains.insert(place, domain) {
            Ok(()) => Ok(()),
            Err(_refused) => Err(OutOfMemory),
        }
    }

    /// The domain of this code, or `None` where there is none.
    pub fn find(&self, alpha2: Alpha2) -> Option<&Domain>
        ensures { MatchOption result (HasCode self.now alpha2 → ⊥) (λ d. Contains self.now d.now × (d.now.alpha2 ≡ alpha2)) }
    {
        find_in(self.domains.as_slice(), alpha2)
    }

    /// How many domains there are.
    pub fn len(&self) -> usize
        ensures { result ≡ length self.now }
    {
        self.domains.len()
    }

    pub fn is_empty(&self) -> bool
        ensures { result ≡ (length self.now == 0) }
    {
        self.domains.is_empty()
    }

    /// The domain at place `k`, counted from 0, or `None` past the end.
    pub fn domain(&self, k: usize) -> Option<&Domain>
        ensures { option_copied result ≡ slice_get self.now k }
    {
        self.domains.get(k)
    }

    /// All domains, in ascending order of their codes.
    pub fn as_slice(&self) -> &[Domain]
        ensures all { result.now ≡ self.now }
        ensures db { IsDb self.now }
    {
        self.domains.as_slice()
    }
}
