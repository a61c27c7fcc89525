//! What two domains allow together, channel by channel.

ghost use Rattle.std.specs.Prelude.{◌≡◌, IfOk, MatchOption};
ghost use Rattle.rule_tables.specs.Governing.{NoneGoverns};
ghost use Rattle.db_lint.specs.CommonLists.{AreCommon, BothGovern, IsAllowedOn, IsCommon};

use crate::entry::{Common, CommonList};
use crate::rule_at::rule_of;
use freq_range::{Rule, all_channels};
use reg_lists::{OutOfMemory, Seq};
use rule_tables::{Domain, allowed_width, governing};
use std::alloc::Global;

/// The rule of a domain that governs a channel, and the width that it allows, in kHz.
#[derive(Clone, Copy)]
struct Allowed {
    rule: Rule,
    width_khz: u32,
}

/// What the domain allows on the channel round this centre, in kHz.
fn allowed_on(domain: &Domain, khz: u32) -> Option<Allowed>
    ensures allowed { MatchOption result (NoneGoverns domain.now.rules khz) (λ x. IsAllowedOn domain.now khz x.rule x.width_khz) }
{
    let Some(k) = governing(domain, khz) else {
        return None;
    };
    Some(Allowed {
        rule: rule_of(domain, k),
        width_khz: allowed_width(domain, k),
    })
}

/// What both domains allow on the channel round this centre, in kHz, where both have a rule for it.
fn common_on(a: &Domain, b: &Domain, khz: u32) -> Option<Common>
    ensures common { MatchOption result (BothGovern a.now b.now khz → ⊥) (λ c. (c.khz ≡ khz) × IsCommon a.now b.now c) }
{
    let Some(one) = allowed_on(a, khz) else {
        return None;
    };
    let Some(other) = allowed_on(b, khz) else {
        return None;
    };
    Some(Common {
        khz,
        width_khz: one.width_khz.min(other.width_khz),
        eirp_mbm: one.rule.eirp_mbm.min(other.rule.eirp_mbm),
        flags: one.rule.flags.joined(&other.rule.flags),
    })
}

/// What both domains allow on each channel for which both have a rule, ascending.
pub fn common(alloc: Global, a: &Domain, b: &Domain) -> Result<CommonList, OutOfMemory>
    ensures common { IfOk result (AreCommon a.now b.now) }
{
    let channels = all_channels(alloc)?;
    let mut list = Seq::new(alloc);
    for khz in channels.as_slice() {
        if let Some(entry) = common_on(a, b, *khz) {
            list.push(entry)?;
        }
    }
    Ok(list)
}
