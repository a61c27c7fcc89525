//! The kinds of attributes.

/// A radio's number (`NL80211_ATTR_WIPHY`).
pub const WIPHY: u16 = 1;
/// The name of an interface (`NL80211_ATTR_IFNAME`).
pub const IFNAME: u16 = 4;
/// The kind of an interface (`NL80211_ATTR_IFTYPE`).
pub const IFTYPE: u16 = 5;
/// A country's code (`NL80211_ATTR_REG_ALPHA2`).
pub const REG_ALPHA2: u16 = 0x21;
/// The centre of the control channel, in MHz (`NL80211_ATTR_WIPHY_FREQ`).
pub const WIPHY_FREQ: u16 = 0x26;
/// How an interface's power is set (`NL80211_ATTR_WIPHY_TX_POWER_SETTING`).
pub const TX_POWER_SETTING: u16 = 0x61;
/// A power, in mBm (`NL80211_ATTR_WIPHY_TX_POWER_LEVEL`).
pub const TX_POWER_LEVEL: u16 = 0x62;
/// Who gives a hint (`NL80211_ATTR_USER_REG_HINT_TYPE`).
pub const USER_REG_HINT_TYPE: u16 = 0x9a;
/// The width of a channel (`NL80211_ATTR_CHANNEL_WIDTH`).
pub const CHANNEL_WIDTH: u16 = 0x9f;
/// The centre of a channel, in MHz (`NL80211_ATTR_CENTER_FREQ1`).
pub const CENTER_FREQ1: u16 = 0xa0;

// Those of simulated radios.

/// The moment, in ms.
pub const MOMENT: u16 = 1;
/// A radio's number.
pub const RADIO: u16 = 2;
/// A radio's bands, a bit each.
pub const BANDS: u16 = 3;
/// A radio's greatest width, in MHz.
pub const WIDTH_MHZ: u16 = 4;
/// A radio's greatest width on a channel that is checked for radar, in MHz.
pub const RADAR_MHZ: u16 = 5;
/// A radio's greatest power, in mBm.
pub const POWER: u16 = 6;
/// On how many channels a radio can be at once.
pub const CONTEXTS: u16 = 7;
/// Whether a radio is self-managed (bit 0), and whether it ignores country elements (bit 1).
pub const PROFILE_FLAGS: u16 = 8;
/// A list of rules.
pub const RULES: u16 = 9;
/// The body of a country element.
pub const BODY: u16 = 10;
/// A country's code.
pub const ALPHA2: u16 = 11;
/// The centre of the control channel, in MHz.
pub const FREQ: u16 = 12;
/// The width of a channel.
pub const WIDTH: u16 = 13;
/// The centre of a channel, in MHz.
pub const CENTRE: u16 = 14;
/// Whether the radios are indoors.
pub const INDOOR: u16 = 15;

// Those of a rule.

/// Its flags, a bit each (`NL80211_ATTR_REG_RULE_FLAGS`).
pub const RULE_FLAGS: u16 = 1;
/// Where it begins, in kHz (`NL80211_ATTR_FREQ_RANGE_START`).
pub const RULE_START: u16 = 2;
/// Where it ends, in kHz (`NL80211_ATTR_FREQ_RANGE_END`).
pub const RULE_END: u16 = 3;
/// Its greatest width, in kHz (`NL80211_ATTR_FREQ_RANGE_MAX_BW`).
pub const RULE_MAX_BW: u16 = 4;
/// Its antenna gain, 0 (`NL80211_ATTR_POWER_RULE_MAX_ANT_GAIN`).
pub const RULE_MAX_ANT_GAIN: u16 = 5;
/// Its greatest power, in mBm (`NL80211_ATTR_POWER_RULE_MAX_EIRP`).
pub const RULE_MAX_EIRP: u16 = 6;
/// How long a channel is checked for radar, in ms (`NL80211_ATTR_DFS_CAC_TIME`).
pub const RULE_CAC_TIME: u16 = 7;
