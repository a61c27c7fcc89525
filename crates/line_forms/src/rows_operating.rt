//! Rows of the lines of iw by which interfaces check and operate.

use crate::slot::Slot::{
    self, Centre, ChannelNo, Dtim, Fixed, Hex, Interval, Mhz, Name, Ssid, Twenty, Wide, WordForm,
};
use crate::slot::Word::{
    Ap, Cac, ChannelOf, Connect, Dev, Disconnect, FreqOf, Head, Ibss, Iw, Join, Leave, Mesh, Start,
    Stop, Trigger,
};

pub const CHECK_FREQ_ALONE: [Slot; 7] = [
    Fixed(Iw),
    Fixed(Dev),
    Name,
    Fixed(Cac),
    Fixed(Trigger),
    Fixed(FreqOf),
    Mhz,
];

pub const CHECK_FREQ_BY_WORD: [Slot; 8] = [
    Fixed(Iw),
    Fixed(Dev),
    Name,
    Fixed(Cac),
    Fixed(Trigger),
    Fixed(FreqOf),
    Mhz,
    WordForm,
];

pub const CHECK_FREQ_TWENTY: [Slot; 8] = [
    Fixed(Iw),
    Fixed(Dev),
    Name,
    Fixed(Cac),
    Fixed(Trigger),
    Fixed(FreqOf),
    Mhz,
    Twenty,
];

pub const CHECK_FREQ_BLOCK: [Slot; 9] = [
    Fixed(Iw),
    Fixed(Dev),
    Name,
    Fixed(Cac),
    Fixed(Trigger),
    Fixed(FreqOf),
    Mhz,
    Wide,
    Centre,
];

pub const CHECK_CHANNEL_ALONE: [Slot; 7] = [
    Fixed(Iw),
    Fixed(Dev),
    Name,
    Fixed(Cac),
    Fixed(Trigger),
    Fixed(ChannelOf),
    ChannelNo,
];

pub const CHECK_CHANNEL_BY_WORD: [Slot; 8] = [
    Fixed(Iw),
    Fixed(Dev),
    Name,
    Fixed(Cac),
    Fixed(Trigger),
    Fixed(ChannelOf),
    ChannelNo,
    WordForm,
];

pub const CHECK_CHANNEL_TWENTY: [Slot; 8] = [
    Fixed(Iw),
    Fixed(Dev),
    Name,
    Fixed(Cac),
    Fixed(Trigger),
    Fixed(ChannelOf),
    ChannelNo,
    Twenty,
];

pub const CHECK_CHANNEL_BLOCK: [Slot; 9] = [
    Fixed(Iw),
    Fixed(Dev),
    Name,
    Fixed(Cac),
    Fixed(Trigger),
    Fixed(ChannelOf),
    ChannelNo,
    Wide,
    Centre,
];

pub const AP_START_ALONE: [Slot; 9] = [
    Fixed(Iw),
    Fixed(Dev),
    Name,
    Fixed(Ap),
    Fixed(Start),
    Ssid,
    Mhz,
    Interval,
    Dtim,
];

pub const AP_START_BY_WORD: [Slot; 10] = [
    Fixed(Iw),
    Fixed(Dev),
    Name,
    Fixed(Ap),
    Fixed(Start),
    Ssid,
    Mhz,
    WordForm,
    Interval,
    Dtim,
];

pub const AP_START_TWENTY: [Slot; 10] = [
    Fixed(Iw),
    Fixed(Dev),
    Name,
    Fixed(Ap),
    Fixed(Start),
    Ssid,
    Mhz,
    Twenty,
    Interval,
    Dtim,
];

pub const AP_START_BLOCK: [Slot; 11] = [
    Fixed(Iw),
    Fixed(Dev),
    Name,
    Fixed(Ap),
    Fixed(Start),
    Ssid,
    Mhz,
    Wide,
    Centre,
    Interval,
    Dtim,
];

pub const AP_START_HEAD_ALONE: [Slot; 11] = [
    Fixed(Iw),
    Fixed(Dev),
    Name,
    Fixed(Ap),
    Fixed(Start),
    Ssid,
    Mhz,
    Interval,
    Dtim,
    Fixed(Head),
    Hex,
];

pub const AP_START_HEAD_BY_WORD: [Slot; 12] = [
    Fixed(Iw),
    Fixed(Dev),
    Name,
    Fixed(Ap),
    Fixed(Start),
    Ssid,
    Mhz,
    WordForm,
    Interval,
    Dtim,
    Fixed(Head),
    Hex,
];

pub const AP_START_HEAD_TWENTY: [Slot; 12] = [
    Fixed(Iw),
    Fixed(Dev),
    Name,
    Fixed(Ap),
    Fixed(Start),
    Ssid,
    Mhz,
    Twenty,
    Interval,
    Dtim,
    Fixed(Head),
    Hex,
];

pub const AP_START_HEAD_BLOCK: [Slot; 13] = [
    Fixed(Iw),
    Fixed(Dev),
    Name,
    Fixed(Ap),
    Fixed(Start),
    Ssid,
    Mhz,
    Wide,
    Centre,
    Interval,
    Dtim,
    Fixed(Head),
    Hex,
];

pub const AP_STOP: [Slot; 5] = [Fixed(Iw), Fixed(Dev), Name, Fixed(Ap), Fixed(Stop)];

pub const IBSS_JOIN_ALONE: [Slot; 7] = [
    Fixed(Iw),
    Fixed(Dev),
    Name,
    Fixed(Ibss),
    Fixed(Join),
    Ssid,
    Mhz,
];

pub const IBSS_JOIN_BY_WORD: [Slot; 8] = [
    Fixed(Iw),
    Fixed(Dev),
    Name,
    Fixed(Ibss),
    Fixed(Join),
    Ssid,
    Mhz,
    WordForm,
];

pub const IBSS_JOIN_TWENTY: [Slot; 8] = [
    Fixed(Iw),
    Fixed(Dev),
    Name,
    Fixed(Ibss),
    Fixed(Join),
    Ssid,
    Mhz,
    Twenty,
];

pub const IBSS_JOIN_BLOCK: [Slot; 9] = [
    Fixed(Iw),
    Fixed(Dev),
    Name,
    Fixed(Ibss),
    Fixed(Join),
    Ssid,
    Mhz,
    Wide,
    Centre,
];

pub const IBSS_LEAVE: [Slot; 5] = [Fixed(Iw), Fixed(Dev), Name, Fixed(Ibss), Fixed(Leave)];

pub const MESH_JOIN_ALONE: [Slot; 8] = [
    Fixed(Iw),
    Fixed(Dev),
    Name,
    Fixed(Mesh),
    Fixed(Join),
    Ssid,
    Fixed(FreqOf),
    Mhz,
];

pub const MESH_JOIN_BY_WORD: [Slot; 9] = [
    Fixed(Iw),
    Fixed(Dev),
    Name,
    Fixed(Mesh),
    Fixed(Join),
    Ssid,
    Fixed(FreqOf),
    Mhz,
    WordForm,
];

pub const MESH_JOIN_TWENTY: [Slot; 9] = [
    Fixed(Iw),
    Fixed(Dev),
    Name,
    Fixed(Mesh),
    Fixed(Join),
    Ssid,
    Fixed(FreqOf),
    Mhz,
    Twenty,
];

pub const MESH_JOIN_BLOCK: [Slot; 10] = [
    Fixed(Iw),
    Fixed(Dev),
    Name,
    Fixed(Mesh),
    Fixed(Join),
    Ssid,
    Fixed(FreqOf),
    Mhz,
    Wide,
    Centre,
];

pub const MESH_LEAVE: [Slot; 5] = [Fixed(Iw), Fixed(Dev), Name, Fixed(Mesh), Fixed(Leave)];

pub const CONNECT: [Slot; 6] = [Fixed(Iw), Fixed(Dev), Name, Fixed(Connect), Ssid, Mhz];

pub const DISCONNECT: [Slot; 4] = [Fixed(Iw), Fixed(Dev), Name, Fixed(Disconnect)];
