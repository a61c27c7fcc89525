//! The forms of lines.

/// How a channel is spelled behind its frequency or number.
#[derive(Clone, Copy)]
pub enum Freq {
    /// By nothing more.
    Alone,
    /// By a word of iw.
    ByWord,
    /// By `20`.
    Twenty,
    /// By its width and its centre.
    Block,
}

/// What stands last of a radio that comes.
#[derive(Clone, Copy)]
pub enum Extra {
    Neither,
    /// `self`: it is self-managed.
    OnlySelf,
    /// `noie`: it ignores country elements.
    OnlyDeaf,
    Both,
}

/// A form of lines.
#[derive(Clone, Copy)]
pub enum Form {
    At,
    RadioAdd(Extra),
    RadioDel,
    RadioRules,
    Element,
    DriverHint,
    Radar(Freq),
    IndoorOn,
    IndoorOff,
    GetReg,
    UserHint,
    RadioInfo,
    ChannelsOf,
    IfaceAdd,
    IfaceInfo,
    IfaceDel,
    SetType,
    SetFreq(Freq),
    SetChannel(Freq),
    PowerAuto,
    PowerLimit,
    PowerFixed,
    CheckFreq(Freq),
    CheckChannel(Freq),
    ApStart(Freq),
    /// With the head of a beacon.
    ApStartHead(Freq),
    ApStop,
    IbssJoin(Freq),
    IbssLeave,
    MeshJoin(Freq),
    MeshLeave,
    Connect,
    Disconnect,
}
