//! What an interface is for.

ghost use Rattle.std.specs.Prelude.{◌≡◌};

/// The most interfaces of a radio.
pub const MOST_IFACES: usize = 8;

/// What an interface is for (`enum nl80211_iftype`).
#[derive(Clone, Copy, Debug, PartialEq, Eq)]
pub enum Kind {
    /// An access point.
    Ap,
    /// A station of a network without access points.
    Ibss,
    /// A point of a mesh.
    Mesh,
    /// A station of an access point.
    Station,
    /// A listener to all that is sent.
    Monitor,
}

impl Kind {
    ghost use Rattle.chan_def.specs.Kinds.{initiates};

    /// Whether an interface of this kind sends first, and so asks for leave to initiate radiation
    /// (`NL80211_RRF_NO_IR`).
    pub fn initiates(self) -> bool
        ensures initiates { result ≡ initiates self }
    {
        match self {
            Kind::Ap | Kind::Ibss | Kind::Mesh => true,
            Kind::Station | Kind::Monitor => false,
        }
    }
}
