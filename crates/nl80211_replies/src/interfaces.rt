//! Interfaces as messages.

ghost use Rattle.std.specs.Prelude.{◌≡◌, ◌++◌, ◌∷◌, [], IfOk, OnOk};
ghost use Rattle.chan_def.specs.declared.definition.ChanDef.{ChanDef};
ghost use Rattle.nl80211_cmds.specs.Fields.{chan_attrs};
ghost use Rattle.nl80211_cmds.specs.declared.attribute.TheConstants.{CENTRE, FREQ, WIDTH};
ghost use Rattle.nl80211_replies.specs.Dumps.{iface_attrs, state_attrs};
ghost use Rattle.nl80211_replies.specs.Plain.{wide_attr};

use crate::answer::push_wide;
use crate::attribute::{IFINDEX, SIM, STATE};
use crate::nested::push_nested;
use chan_def::ChanDef;
use nl_attrs::AttrList;
use nl80211_cmds::attribute::{
    CENTRE, FREQ, IFNAME, IFTYPE, TX_POWER_LEVEL, TX_POWER_SETTING, WIDTH, WIPHY,
};
use nl80211_cmds::{iftype_number, push_chan, push_number, push_power, push_text};
use reg_journal::{IfaceReport, IfaceState};
use reg_lists::OutOfMemory;
use std::alloc::Global;

/// Appends a channel in use, and the moment or the power that goes with it.
fn push_use(out: &mut AttrList, chan: &ChanDef, number: u64) -> Result<(), OutOfMemory>
    ensures { OnOk result (out.new ≡ out.old ++ (chan_attrs FREQ WIDTH CENTRE chan.now ++ wide_attr number ∷ [])) }
{
    push_chan(out, FREQ, WIDTH, CENTRE, *chan)?;
    push_wide(out, number)
}

/// Appends what an interface does.
fn push_state(out: &mut AttrList, state: &IfaceState) -> Result<(), OutOfMemory>
    ensures { OnOk result (out.new ≡ out.old ++ state_attrs state.now) }
{
    match state {
        IfaceState::Idle => push_number(out, STATE, 0),
        IfaceState::Checking { chan, until } => {
            push_number(out, STATE, 1)?;
            push_use(out, chan, *until)
        }
        IfaceState::Running { chan, power_mbm } => {
            push_number(out, STATE, 2)?;
            push_use(out, chan, u64::from(*power_mbm))
        }
    }
}

/// The attributes of an interface.
pub fn iface_attrs(alloc: Global, report: &IfaceReport) -> Result<AttrList, OutOfMemory>
    ensures { IfOk result (λ attrs. attrs ≡ iface_attrs report.now) }
{
    let mut held = AttrList::new(alloc);
    push_state(&mut held, &report.state)?;
    let mut out = AttrList::new(alloc);
    push_number(&mut out, WIPHY, report.radio.get())?;
    push_number(&mut out, IFINDEX, report.index.0)?;
    push_text(&mut out, IFNAME, report.name.as_bytes())?;
    push_number(&mut out, IFTYPE, iftype_number(report.kind))?;
    push_power(&mut out, TX_POWER_SETTING, TX_POWER_LEVEL, report.setting)?;
    push_nested(&mut out, SIM, &held)?;
    Ok(out)
}
