//! The kinds of attributes that replies have beside those of requests.

/// The name of a radio (`NL80211_ATTR_WIPHY_NAME`).
pub const WIPHY_NAME: u16 = 2;
/// The number of an interface (`NL80211_ATTR_IFINDEX`).
pub const IFINDEX: u16 = 3;
/// A list of rules (`NL80211_ATTR_REG_RULES`).
pub const REG_RULES: u16 = 0x22;
/// A region of radar detection (`NL80211_ATTR_DFS_REGION`).
pub const DFS_REGION: u16 = 0x92;
/// Attributes of the family of simulated radios.
pub const SIM: u16 = 0x3f00;

// Those of simulated radios.

/// The code of an answer or of an effect.
pub const CODE: u16 = 16;
/// What an answer or an effect tells, in eight bytes.
pub const NUMBER: u16 = 17;
/// The name of an interface.
pub const NAME: u16 = 18;
/// What came to another interface.
pub const EFFECT: u16 = 19;
/// The flags of the rules on a channel, a bit each.
pub const FLAGS: u16 = 20;
/// The greatest power on a channel, in mBm.
pub const LIMIT: u16 = 21;
/// The greatest width of a channel round this one, in kHz.
pub const WIDTH_KHZ: u16 = 22;
/// What is known of radar on a channel, in one byte.
pub const DFS: u16 = 23;
/// What an interface does.
pub const STATE: u16 = 24;
/// An interface of a radio.
pub const IFACE: u16 = 25;
/// The kind of an interface.
pub const KIND: u16 = 26;

// Commands of replies that are none of a request.

/// A radio (`NL80211_CMD_NEW_WIPHY`).
pub const NEW_WIPHY: u8 = 3;
/// A plain reply.
pub const REPLY: u8 = 10;
/// A channel.
pub const CHANNEL: u8 = 11;

/// The version of replies.
pub const VERSION: u8 = 1;
/// The flag of each message of a dump (`NLM_F_MULTI`).
pub const MULTI: u16 = 2;
