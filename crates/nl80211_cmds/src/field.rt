//! What attributes of a command say.

/// One thing that a command's attributes say, with the kinds of these attributes.
#[derive(Clone, Copy, Debug)]
pub enum Field {
    /// The number of a radio.
    Radio(u16),
    /// The name of an interface.
    Name(u16),
    /// The kind of an interface.
    Kind(u16),
    /// A country's code.
    Code(u16),
    /// A channel: its control frequency, its width and its centre.
    Chan(u16, u16, u16),
    /// A channel without the modes of 802.11n and later: the same.
    PlainChan(u16, u16, u16),
    /// How power is set, and the power.
    Power(u16, u16),
    /// A moment, in ms.
    Moment(u16),
    /// Whether something holds.
    Switch(u16),
    /// A radio's profile, whose attributes stand by themselves.
    Profile,
    /// Bytes of a country element.
    Body(u16),
    /// A list of rules.
    Rules(u16),
}
