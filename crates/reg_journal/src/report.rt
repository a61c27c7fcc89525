//! What is shown of rules, radios and interfaces.

use crate::lists::{IfaceList, RowList};
use chan_def::{ChanDef, Kind};
use chan_flags::{PowerSetting, Profile};
use radio_drv::{IfIndex, Name};
use reg_hints::RadioNo;
use rule_tables::{Alpha2, Region};

/// The rules of a list of domains: the global one, or that of a radio with a list of its own.
#[derive(Debug, Drop)]
pub struct Section {
    /// The radio, or none for the global list.
    pub radio: Option<RadioNo>,
    /// The domain's code, or `98` for several.
    pub alpha2: Alpha2,
    pub region: Region,
    pub rows: RowList,
}

/// A radio and its interfaces, in order of creation.
#[derive(Debug, Drop)]
pub struct RadioReport {
    pub radio: RadioNo,
    pub profile: Profile,
    pub ifaces: IfaceList,
}

/// What an interface does.
#[derive(Clone, Copy, Debug, PartialEq, Eq)]
pub enum IfaceState {
    /// Nothing.
    Idle,
    /// It checks the channel for radar until this moment, in ms.
    Checking { chan: ChanDef, until: u64 },
    /// It operates on the channel with this power, in mBm.
    Running { chan: ChanDef, power_mbm: u16 },
}

/// An interface.
#[derive(Clone, Copy, Debug, PartialEq, Eq)]
pub struct IfaceReport {
    pub name: Name,
    pub index: IfIndex,
    pub radio: RadioNo,
    pub kind: Kind,
    pub setting: PowerSetting,
    pub state: IfaceState,
}
