//! From the countries of a text to its database.

ghost use Rattle.std.specs.Prelude.{IfOk};
ghost use Rattle.rule_text.specs.inner.State.{AreDomainsOf, AreReady};

use crate::countries::Country;
use reg_lists::OutOfMemory;
use rule_tables::{Db, Domain};
use std::alloc::Global;

/// The database of the countries' domains.
pub fn assemble(alloc: Global, countries: Vec<Country>) -> Result<Db, OutOfMemory>
    requires { AreReady countries.items }
    ensures { IfOk result (AreDomainsOf countries.items) }
{
    let mut left = countries;
    let mut db = Db::new(alloc);
    while let Some(country) = left.pop() {
        let domain = Domain {
            alpha2: country.alpha2,
            region: country.region,
            rules: country.rules,
        };
        db.insert_new(domain)?;
    }
    Ok(db)
}
