//! Families of messages.

ghost use Rattle.std.specs.Prelude.{◌≡◌};

/// A family of messages, which is the type in their header.
#[derive(Clone, Copy, Debug, PartialEq, Eq)]
pub enum Family {
    /// Commands of nl80211.
    Nl80211,
    /// Commands to simulated radios.
    Simulation,
}

impl Family {
    ghost use Rattle.nl80211_cmds.specs.Commands.{family_number};

    /// Its number.
    pub fn number(self) -> u16
        ensures number { result ≡ family_number self }
    {
        match self {
            Family::Nl80211 => 32,
            Family::Simulation => 33,
        }
    }
}
