//! Prints a database.

ghost use Rattle.std.specs.Prelude.{◌≡◌, ◌++◌, IfOk, MatchOption, MatchResult, OnOk, flat_map, map, option_map};
ghost use Rattle.freq_range.specs.First.{IsFirst};
ghost use Rattle.db_text.specs.inner.Naming.{IsNumbered};
ghost use Rattle.db_text.specs.Printed.{HasTimeAt, IsFirstTime, IsPrintFault, LackTimes, LacksTimes, country_line, country_lines, ended, name_among, printed, region_part, rule_line, text_of_lines};
ghost use Rattle.db_text.specs.PrintedRules.{name_part};
ghost use Rattle.text_lines.specs.Spelling.{region_name};
ghost use Rattle.rule_text.specs.TextOf.{TextOf};

use crate::print_fault::PrintFault;
use crate::rule_printer::put_rule_part;
use crate::wmm_names::{WmmNames, wmm_names};
use crate::wmm_printer::{put_wmm_name, put_wmm_rules};
use freq_range::{Rule, Wmm};
use reg_base::Bytes;
use reg_lists::OutOfMemory;
use rule_tables::{Alpha2, Db, Domain, Region};
use std::alloc::Global;

/// The first rule with a check time, counted from 0.
fn first_time_among(rules: &[Rule]) -> Option<usize>
    ensures { MatchOption result (LacksTimes rules.now) (IsFirst (HasTimeAt rules.now)) }
{
    for (k, rule) in rules.iter().enumerate() {
        if rule.cac_s > 0 {
            return Some(k);
        }
    }
    None
}

/// The country and the place of the first rule with a check time.
fn first_time(domains: &[Domain]) -> Option<(Alpha2, usize)>
    ensures { MatchOption result (LackTimes domains.now) (λ x. IsFirstTime domains.now x.0 x.1) }
{
    for domain in domains {
        if let Some(k) = first_time_among(domain.rules.as_slice()) {
            return Some((domain.alpha2, k));
        }
    }
    None
}

/// The name of a region behind a blank, or nothing for none.
fn region_part(region: Region) -> &'static [u8]
    ensures { result.now ≡ region_part (region_name region) }
{
    match region {
        Region::Unset => b"",
        Region::Fcc => b" DFS-FCC",
        Region::Etsi => b" DFS-ETSI",
        Region::Jp => b" DFS-JP",
    }
}

/// Appends the header of a country.
#[tactic(auto, unfolding(crate::specs::Printed::country_line))]
fn put_header(out: &mut Bytes, domain: &Domain) -> Result<(), OutOfMemory>
    ensures { OnOk result (out.new ≡ out.old ++ ended (country_line domain.now)) }
{
    out.append(b"country ")?;
    out.append(&[domain.alpha2.a, domain.alpha2.b])?;
    out.push(b':')?;
    out.append(region_part(domain.region))?;
    out.push(b'\n')?;
    Ok(())
}

/// Appends the name of a rule's WMM rule, if it has one.
fn put_name(out: &mut Bytes, names: &WmmNames, wmm: &Option<Wmm>) -> Result<(), OutOfMemory>
    requires { IsNumbered names.now }
    ensures { OnOk result (out.new ≡ out.old ++ name_part (option_map (name_among names.now.rules.items) wmm.now)) }
{
    if let Some(wmm) = wmm {
        out.append(b", wmmrule=")?;
        put_wmm_name(out, names.place_of(wmm))?;
    }
    Ok(())
}

/// Appends the line of a rule.
#[tactic(auto, unfolding(crate::specs::Printed::rule_line))]
fn put_rule(out: &mut Bytes, names: &WmmNames, rule: &Rule) -> Result<(), OutOfMemory>
    requires { IsNumbered names.now }
    ensures { OnOk result (out.new ≡ out.old ++ ended (rule_line names.now.rules.items rule.now)) }
{
    out.push(b'\t')?;
    put_rule_part(out, rule)?;
    put_name(out, names, &rule.wmm)?;
    out.push(b'\n')?;
    Ok(())
}

/// Appends the lines of rules.
fn put_rules(out: &mut Bytes, names: &WmmNames, rules: &[Rule]) -> Result<(), OutOfMemory>
    requires { IsNumbered names.now }
    ensures { OnOk result (out.new ≡ out.old ++ text_of_lines (map (rule_line names.now.rules.items) rules.now)) }
{
    for rule in rules {
        put_rule(out, names, rule)?;
    }
    Ok(())
}

/// Appends the lines of countries.
fn put_countries(out: &mut Bytes, names: &WmmNames, domains: &[Domain]) -> Result<(), OutOfMemory>
    requires { IsNumbered names.now }
    ensures { OnOk result (out.new ≡ out.old ++ text_of_lines (flat_map (country_lines names.now.rules.items) domains.now)) }
{
    for domain in domains {
        put_header(out, domain)?;
        put_rules(out, names, domain.rules.as_slice())?;
    }
    Ok(())
}

/// The text of a database without check times.
fn text_of(alloc: Global, db: &Db) -> Result<Bytes, OutOfMemory>
    ensures { IfOk result (λ text. text ≡ printed db.now) }
{
    let domains = db.as_slice();
    let names = wmm_names(alloc, domains)?;
    let mut out = Bytes::new(alloc);
    put_wmm_rules(&mut out, names.rules.as_slice())?;
    put_countries(&mut out, &names, domains)?;
    Ok(out)
}

/// The rule text of a database (`db.txt` of wireless-regdb): first the WMM rules in use, in order of
/// their first use, as `w0`, `w1` and so on, and then the countries with their rules. `parse` reads
/// it as this database.
///
/// Otherwise the fault is `CacTime` with the first rule that has a check time, countries and rules
/// in order, or where no rule has one, out of memory.
pub fn print(alloc: Global, db: &Db) -> Result<Bytes, PrintFault>
    ensures text { IfOk result (λ text. text ≡ printed db.now) }
    ensures reads { IfOk result (λ text. TextOf text db.now) }
    ensures cause { MatchResult result (λ _. LackTimes db.now) (IsPrintFault db.now) }
{
    if let Some((country, rule)) = first_time(db.as_slice()) {
        return Err(PrintFault::CacTime { country, rule });
    }
    let text = text_of(alloc, db)?;
    Ok(text)
}
