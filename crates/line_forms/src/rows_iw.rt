//! Rows of the lines of iw on rules, radios and interfaces.

use crate::slot::Slot::{
    self, Centre, ChannelNo, Code, Fixed, Mhz, Name, OfKind, Power, Radio, Twenty, Wide, WordForm,
};
use crate::slot::Word::{
    Add, Auto, ChannelOf, Channels, Del, Dev, FixedAt, FreqOf, Get, Info, Interface, Iw, Limit,
    Phy, Reg, Set, TxPower, TypeOf,
};

pub const GET_REG: [Slot; 3] = [Fixed(Iw), Fixed(Reg), Fixed(Get)];

pub const USER_HINT: [Slot; 4] = [Fixed(Iw), Fixed(Reg), Fixed(Set), Code];

pub const RADIO_INFO: [Slot; 4] = [Fixed(Iw), Fixed(Phy), Radio, Fixed(Info)];

pub const CHANNELS_OF: [Slot; 4] = [Fixed(Iw), Fixed(Phy), Radio, Fixed(Channels)];

pub const IFACE_ADD: [Slot; 8] = [
    Fixed(Iw),
    Fixed(Phy),
    Radio,
    Fixed(Interface),
    Fixed(Add),
    Name,
    Fixed(TypeOf),
    OfKind,
];

pub const IFACE_INFO: [Slot; 4] = [Fixed(Iw), Fixed(Dev), Name, Fixed(Info)];

pub const IFACE_DEL: [Slot; 4] = [Fixed(Iw), Fixed(Dev), Name, Fixed(Del)];

pub const SET_TYPE: [Slot; 6] = [
    Fixed(Iw),
    Fixed(Dev),
    Name,
    Fixed(Set),
    Fixed(TypeOf),
    OfKind,
];

pub const SET_FREQ_ALONE: [Slot; 6] = [Fixed(Iw), Fixed(Dev), Name, Fixed(Set), Fixed(FreqOf), Mhz];

pub const SET_FREQ_BY_WORD: [Slot; 7] = [
    Fixed(Iw),
    Fixed(Dev),
    Name,
    Fixed(Set),
    Fixed(FreqOf),
    Mhz,
    WordForm,
];

pub const SET_FREQ_TWENTY: [Slot; 7] = [
    Fixed(Iw),
    Fixed(Dev),
    Name,
    Fixed(Set),
    Fixed(FreqOf),
    Mhz,
    Twenty,
];

pub const SET_FREQ_BLOCK: [Slot; 8] = [
    Fixed(Iw),
    Fixed(Dev),
    Name,
    Fixed(Set),
    Fixed(FreqOf),
    Mhz,
    Wide,
    Centre,
];

pub const SET_CHANNEL_ALONE: [Slot; 6] = [
    Fixed(Iw),
    Fixed(Dev),
    Name,
    Fixed(Set),
    Fixed(ChannelOf),
    ChannelNo,
];

pub const SET_CHANNEL_BY_WORD: [Slot; 7] = [
    Fixed(Iw),
    Fixed(Dev),
    Name,
    Fixed(Set),
    Fixed(ChannelOf),
    ChannelNo,
    WordForm,
];

pub const SET_CHANNEL_TWENTY: [Slot; 7] = [
    Fixed(Iw),
    Fixed(Dev),
    Name,
    Fixed(Set),
    Fixed(ChannelOf),
    ChannelNo,
    Twenty,
];

pub const SET_CHANNEL_BLOCK: [Slot; 8] = [
    Fixed(Iw),
    Fixed(Dev),
    Name,
    Fixed(Set),
    Fixed(ChannelOf),
    ChannelNo,
    Wide,
    Centre,
];

pub const POWER_AUTO: [Slot; 6] = [
    Fixed(Iw),
    Fixed(Dev),
    Name,
    Fixed(Set),
    Fixed(TxPower),
    Fixed(Auto),
];

pub const POWER_LIMIT: [Slot; 7] = [
    Fixed(Iw),
    Fixed(Dev),
    Name,
    Fixed(Set),
    Fixed(TxPower),
    Fixed(Limit),
    Power,
];

pub const POWER_FIXED: [Slot; 7] = [
    Fixed(Iw),
    Fixed(Dev),
    Name,
    Fixed(Set),
    Fixed(TxPower),
    Fixed(FixedAt),
    Power,
];
