//! Prints the rules of a radio.

ghost use Rattle.std.specs.Prelude.{◌≡◌, ◌++◌, codes, All, None, OnOk};
ghost use Rattle.std.specs.List.{flat_map};
ghost use Rattle.db_text.specs.PrintedRules.{printed_rule};
ghost use Rattle.line_printing.specs.Printed.{IsPlainLineRule, rules_line};

use db_text::print_rule;
use freq_range::Rule;
use reg_base::Bytes;
use reg_lists::OutOfMemory;

/// Appends a rule.
fn put_rule(out: &mut Bytes, rule: &Rule) -> Result<(), OutOfMemory>
    requires { IsPlainLineRule rule.now }
    ensures { OnOk result (out.new ≡ out.old ++ printed_rule rule.now None) }
{
    let text = print_rule(out.allocator(), rule)?;
    out.append(text.as_slice())?;
    Ok(())
}

/// Appends each rule behind `; `.
fn put_more_rules(out: &mut Bytes, rules: &[Rule]) -> Result<(), OutOfMemory>
    requires { All IsPlainLineRule rules.now }
    ensures { OnOk result (out.new ≡ out.old ++ flat_map (λ next. codes "; " ++ printed_rule next None) rules.now) }
{
    for rule in rules {
        out.append(b"; ")?;
        put_rule(out, rule)?;
    }
    Ok(())
}

/// Appends rules, parted by `; `.
pub fn put_rules(out: &mut Bytes, rules: &[Rule]) -> Result<(), OutOfMemory>
    requires { All IsPlainLineRule rules.now }
    ensures { OnOk result (out.new ≡ out.old ++ rules_line rules.now) }
{
    let [first, rest @ ..] = rules else {
        return Ok(());
    };
    put_rule(out, first)?;
    put_more_rules(out, rest)?;
    Ok(())
}
