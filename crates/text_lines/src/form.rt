//! The words that lines are made of.

/// A flag, by the name that texts have for it.
#[derive(Clone, Copy, Debug, PartialEq, Eq)]
pub enum Flag {
    NoOfdm,
    NoOutdoor,
    Dfs,
    NoIr,
    AutoBw,
    NoCck,
    NoIndoor,
    PtpOnly,
    PtmpOnly,
}

/// An item of a WMM rule, by the name that texts have for it.
#[derive(Clone, Copy, Debug, PartialEq, Eq)]
pub enum Item {
    VoC,
    ViC,
    BeC,
    BkC,
    VoAp,
    ViAp,
    BeAp,
    BkAp,
}

/// How a line begins, that of its four kinds.
#[derive(Clone, Copy, Debug, PartialEq, Eq)]
pub enum Opening {
    /// `country`: the header of countries.
    Country,
    /// `wmmrule`: the header of a WMM rule.
    Wmm,
    /// `(`: a rule.
    Rule,
    /// The name of an item and a colon.
    Item(Item),
}
