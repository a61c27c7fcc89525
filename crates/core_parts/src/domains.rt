//! The domains of a database, the world's where it doesn't say, and those of custom rules.

ghost use Rattle.std.specs.Prelude.{◌≡◌, [], IfOk, IfSome, Some, find};
ghost use Rattle.std.specs.Option.{option_copied};
ghost use Rattle.rule_tables.specs.World.{custom_domain, world};
ghost use Rattle.rule_tables.specs.Code.{is_same_code};
ghost use Rattle.reg_journal.specs.Applicable.{find_domain};
ghost use Rattle.core_parts.specs.TableRules.{AreTableRules};

use freq_range::RuleList;
use reg_lists::OutOfMemory;
use rule_tables::{Alpha2, Db, Domain};
use std::alloc::Global;
use std::marker::Model;

/// A radio's custom rules, as a domain.
#[derive(Drop)]
pub struct CustomRules {
    domain: Domain,
}

impl Model for CustomRules {
    ghost use Rattle.rule_tables.specs.declared.domain.Domain.{Domain};
    ghost use Rattle.core_parts.specs.TableRules.{AreTableRules};

    ghost Value = { Domain };

    ghost view = { λ o. o.domain };

    ghost invariant = { λ o. AreTableRules o.domain.rules };
}

impl CustomRules {
    pub fn new(rules: RuleList) -> CustomRules
        requires { AreTableRules rules }
        ensures { result ≡ custom_domain rules }
    {
        CustomRules {
            domain: Domain::custom(rules),
        }
    }

    pub fn domain(&self) -> &Domain
        ensures domain { result.now ≡ self.now }
        ensures rules { AreTableRules self.now.rules }
    {
        &self.domain
    }
}

/// The database's domain of this code.
fn stored(db: &Db, alpha2: Alpha2) -> Option<&Domain>
    ensures domain { option_copied result ≡ find (λ d. is_same_code d.alpha2 alpha2) db.now }
    ensures rules { IfSome result (λ d. AreTableRules d.now.rules) }
{
    let _domains = db.as_slice();
    db.find(alpha2)
}

/// The domains that codes name.
#[derive(Drop)]
pub struct Domains {
    db: Db,
    /// Stands for the world's code where the database has none.
    world: Domain,
    /// Permits nothing.
    nothing: Domain,
}

impl Model for Domains {
    ghost use Rattle.std.specs.Prelude.{List};
    ghost use Rattle.rule_tables.specs.declared.domain.Domain.{Domain};
    ghost use Rattle.core_parts.specs.Worlds.{AreAtHand};

    ghost Value = { List Domain };

    ghost view = { λ d. d.db };

    ghost invariant = { λ d. AreAtHand d.world d.nothing };
}

impl Domains {
    /// The domains of the database, with the world's where it has none.
    pub fn new(alloc: Global, db: Db) -> Result<Domains, OutOfMemory>
        ensures { IfOk result (λ domains. domains ≡ db) }
    {
        Ok(Domains {
            db,
            world: Domain::world(alloc)?,
            nothing: Domain::custom(RuleList::new(alloc)),
        })
    }

    /// The domain of the code: the database's, or for `00` the world's where the database has none.
    pub fn find(&self, alpha2: Alpha2) -> Option<&Domain>
        ensures domain { option_copied result ≡ find_domain self.now alpha2 }
        ensures rules { IfSome result (λ d. AreTableRules d.now.rules) }
    {
        match stored(&self.db, alpha2) {
            Some(domain) => Some(domain),
            None if alpha2.is_same(&Alpha2::WORLD) => Some(&self.world),
            None => None,
        }
    }

    /// The world's domain: the database's, or its own where that has none.
    pub fn world(&self) -> &Domain
        ensures domain { find_domain self.now world ≡ Some result.now }
        ensures rules { AreTableRules result.now.rules }
    {
        match stored(&self.db, Alpha2::WORLD) {
            Some(domain) => domain,
            None => &self.world,
        }
    }

    /// The domain that permits nothing.
    pub fn nothing(&self) -> &Domain
        ensures nothing { result.now ≡ custom_domain [] }
        ensures rules { AreTableRules result.now.rules }
    {
        &self.nothing
    }
}
