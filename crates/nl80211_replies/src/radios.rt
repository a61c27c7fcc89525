//! Radios as messages.

ghost use Rattle.std.specs.Prelude.{◌≡◌, ◌++◌, ◌∷◌, [], All, IfOk, OnOk, map};
ghost use Rattle.nl80211_replies.specs.Dumps.{iface_attr, phy_name, radio_attrs};
ghost use Rattle.nl80211_replies.specs.inner.Fitting.{HasName};

use crate::answer::push_wide;
use crate::attribute::{IFACE, KIND, NAME, SIM, WIPHY_NAME};
use crate::nested::push_nested;
use chan_def::Kind;
use nl_attrs::AttrList;
use nl80211_cmds::attribute::WIPHY;
use nl80211_cmds::{iftype_number, push_number, push_profile, push_text};
use radio_drv::{IfIndex, Name};
use reg_hints::RadioNo;
use reg_journal::RadioReport;
use reg_lists::OutOfMemory;
use std::alloc::Global;

/// Appends an interface of a radio.
fn push_iface(out: &mut AttrList, iface: &(Name, IfIndex, Kind)) -> Result<(), OutOfMemory>
    ensures attr { OnOk result (out.new ≡ out.old ++ iface_attr iface.now ∷ []) }
    ensures named { OnOk result (HasName iface.now) }
{
    let mut held = AttrList::new(out.allocator());
    push_text(&mut held, NAME, iface.0.as_bytes())?;
    push_wide(&mut held, u64::from(iface.1.0))?;
    push_number(&mut held, KIND, iftype_number(iface.2))?;
    push_nested(out, IFACE, &held)
}

/// Appends the interfaces of a radio, in order of creation. After `OutOfMemory` a part of them may be
/// there.
fn push_ifaces(out: &mut AttrList, ifaces: &[(Name, IfIndex, Kind)]) -> Result<(), OutOfMemory>
    ensures attrs { OnOk result (out.new ≡ out.old ++ map iface_attr ifaces.now) }
    ensures named { OnOk result (All HasName ifaces.now) }
{
    for iface in ifaces {
        push_iface(out, iface)?;
    }
    Ok(())
}

/// The name of a radio: `phy` and its digit.
fn phy_name(radio: RadioNo) -> [u8; 4]
    ensures { result ≡ phy_name radio }
{
    [b'p', b'h', b'y', b'0' + radio.get() as u8]
}

/// The attributes of a radio.
pub fn radio_attrs(alloc: Global, report: &RadioReport) -> Result<AttrList, OutOfMemory>
    ensures { IfOk result (λ attrs. attrs ≡ radio_attrs report.now) }
{
    let mut held = AttrList::new(alloc);
    push_profile(&mut held, &report.profile)?;
    push_ifaces(&mut held, report.ifaces.as_slice())?;
    let mut out = AttrList::new(alloc);
    push_number(&mut out, WIPHY, report.radio.get())?;
    push_text(&mut out, WIPHY_NAME, &phy_name(report.radio))?;
    push_nested(&mut out, SIM, &held)?;
    Ok(out)
}
