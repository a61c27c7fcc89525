//! How many countries and rules a database has.

ghost use Rattle.std.specs.Prelude.{◌≡◌, ◌*◌, ◌≤◌, All, IfOk, length};
ghost use Rattle.rule_tables.specs.Databases.{IsDb};
ghost use Rattle.db_commands.specs.Reports.{count_line, rule_count};

use crate::line::line_of;
use reg_base::Bytes;
use reg_lists::OutOfMemory;
use rule_tables::Domain;
use std::alloc::Global;

/// `C countries, R rules` and a newline.
pub fn count_line(alloc: Global, domains: &[Domain]) -> Result<Bytes, OutOfMemory>
    requires { IsDb domains.now }
    ensures { IfOk result (λ line. line ≡ count_line domains.now) }
{
    let countries = domains.len();
    let rules = count_rules(domains);
    let text = format!(in alloc; "{countries} countries, {rules} rules")?;
    line_of(alloc, text.as_bytes())
}

/// How many rules the domains have in all.
pub fn count_rules(domains: &[Domain]) -> usize
    requires few { length domains.now ≤ 65536 }
    requires short { All (λ d. length d.rules ≤ 128) domains.now }
    ensures rules { result ≡ rule_count domains.now }
{
    let mut rules = 0;
    for domain in domains {
        rules += domain.rules.len();
    }
    rules
}
