//! Requests.

use chan_def::{ChanDef, Kind};
use chan_flags::{PowerSetting, Profile};
use freq_range::RuleList;
use radio_drv::Name;
use reg_base::Bytes;
use reg_hints::RadioNo;
use rule_tables::Alpha2;

/// What the core is asked: a command of nl80211, or something that happens to a simulated radio.
#[derive(Debug, Drop)]
pub enum Request {
    /// The moment is this, in ms.
    At(u64),
    /// A radio comes (`ieee80211_register_hw`).
    RadioAdd {
        radio: RadioNo,
        profile: Profile,
    },
    /// The radio goes.
    RadioDel(RadioNo),
    /// The radio's custom rules (`wiphy_apply_custom_regulatory`).
    RadioRules {
        radio: RadioNo,
        rules: RuleList,
    },
    /// The radio received a country element with this body (`regulatory_hint_country_ie`).
    Element {
        radio: RadioNo,
        body: Bytes,
    },
    /// The radio's driver says where it is (`regulatory_hint`).
    DriverHint {
        radio: RadioNo,
        alpha2: Alpha2,
    },
    /// The user says where the radios are (`NL80211_CMD_REQ_SET_REG`).
    UserHint(Alpha2),
    /// The radio met radar on the channel (`cfg80211_radar_event`).
    Radar {
        radio: RadioNo,
        chan: ChanDef,
    },
    /// Whether the radios are indoors.
    Indoor(bool),
    /// An interface comes (`NL80211_CMD_NEW_INTERFACE`).
    IfaceAdd {
        radio: RadioNo,
        name: Name,
        kind: Kind,
    },
    /// The interface goes (`NL80211_CMD_DEL_INTERFACE`).
    IfaceDel(Name),
    /// The interface becomes one of this kind (`NL80211_CMD_SET_INTERFACE`).
    SetType {
        name: Name,
        kind: Kind,
    },
    /// With which power the interface is to send (`NL80211_ATTR_WIPHY_TX_POWER_SETTING`).
    SetPower {
        name: Name,
        setting: PowerSetting,
    },
    /// The interface starts to operate as one of this kind (`NL80211_CMD_START_AP` and others).
    Start {
        name: Name,
        kind: Kind,
        chan: ChanDef,
    },
    /// The interface's operation stops (`NL80211_CMD_STOP_AP` and others).
    Stop {
        name: Name,
        kind: Kind,
    },
    /// The interface checks the channel for radar (CAC, `NL80211_CMD_RADAR_DETECT`).
    Check {
        name: Name,
        chan: ChanDef,
    },
    /// The rules that hold (`NL80211_CMD_GET_REG`).
    GetReg,
    /// The radio's channels.
    Channels(RadioNo),
    /// The radio and its interfaces (`NL80211_CMD_GET_WIPHY`).
    RadioInfo(RadioNo),
    /// The interface (`NL80211_CMD_GET_INTERFACE`).
    IfaceInfo(Name),
}
