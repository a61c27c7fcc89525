//! Hints, and what is known of the last one.

ghost use Rattle.std.specs.Prelude.{◌≡◌};

use crate::radio::RadioNo;
use rule_tables::Alpha2;

/// The code of the world's domain.
pub(crate) const WORLD: Alpha2 = Alpha2 { a: b'0', b: b'0' };

/// A hint at the country in which the radios are.
#[derive(Clone, Copy, Debug, PartialEq, Eq)]
pub enum Hint {
    /// A user's (`NL80211_REGDOM_SET_BY_USER`).
    User(Alpha2),
    /// A driver's, of its radio (`NL80211_REGDOM_SET_BY_DRIVER`).
    Driver {
        radio: RadioNo,
        alpha2: Alpha2,
    },
    /// A country element that a radio received (`NL80211_REGDOM_SET_BY_COUNTRY_IE`). It is `deaf` where
    /// the radio ignores elements or is self-managed.
    Element {
        radio: RadioNo,
        alpha2: Alpha2,
        deaf: bool,
    },
}

/// How a hint is treated (`enum reg_request_treatment`).
#[derive(Clone, Copy, Debug, PartialEq, Eq)]
pub enum Treatment {
    /// Its domain becomes the global list.
    Replace,
    /// Its domain is added to the global list.
    Intersect,
    /// Its domain is the global list already.
    Already,
    /// It changes nothing.
    Ignore,
}

/// The last hint that was taken (`struct regulatory_request`).
#[derive(Clone, Copy, Debug, PartialEq, Eq)]
pub enum Last {
    /// None yet: the core's own, for the world (`NL80211_REGDOM_SET_BY_CORE`).
    Core,
    /// A user's, and whether it was intersected.
    User { alpha2: Alpha2, intersected: bool },
    /// A driver's.
    Driver { alpha2: Alpha2 },
    /// A country element that this radio received.
    Element { radio: RadioNo, alpha2: Alpha2 },
}

impl Hint {
    ghost use Rattle.reg_hints.specs.Table.{as_last, hinted_code, is_drivers};

    /// The code that it names.
    pub(crate) fn alpha2(&self) -> Alpha2
        ensures { result ≡ hinted_code self.now }
    {
        match self {
            Hint::User(alpha2) | Hint::Driver { alpha2, .. } | Hint::Element { alpha2, .. } =>
                *alpha2,
        }
    }

    /// Whether a driver gave it.
    pub(crate) fn is_drivers(&self) -> bool
        ensures { result ≡ is_drivers self.now }
    {
        match self {
            Hint::Driver { .. } => true,
            Hint::User(_) | Hint::Element { .. } => false,
        }
    }

    /// The hint as the last one.
    pub(crate) fn as_last(&self, intersected: bool) -> Last
        ensures { result ≡ as_last self.now intersected }
    {
        match self {
            Hint::User(alpha2) => Last::User {
                alpha2: *alpha2,
                intersected,
            },
            Hint::Driver { alpha2, .. } => Last::Driver { alpha2: *alpha2 },
            Hint::Element { radio, alpha2, .. } => Last::Element {
                radio: *radio,
                alpha2: *alpha2,
            },
        }
    }
}

impl Last {
    ghost use Rattle.reg_hints.specs.Last.{last_code, is_core, is_driver, is_element, is_element_of_other, is_intersected_user};

    /// The code that it named, `00` for the core's own.
    pub(crate) fn alpha2(&self) -> Alpha2
        ensures { result ≡ last_code self.now }
    {
        match self {
            Last::Core => WORLD,
            Last::User { alpha2, .. } | Last::Driver { alpha2 } | Last::Element { alpha2, .. } =>
                *alpha2,
        }
    }

    pub(crate) fn is_core(&self) -> bool
        ensures { result ≡ is_core self.now }
    {
        matches!(self, Last::Core)
    }

    /// Whether it was a user's that was intersected.
    pub(crate) fn is_intersected_user(&self) -> bool
        ensures { result ≡ is_intersected_user self.now }
    {
        match self {
            Last::User { intersected, .. } => *intersected,
            Last::Core | Last::Driver { .. } | Last::Element { .. } => false,
        }
    }

    pub(crate) fn is_driver(&self) -> bool
        ensures { result ≡ is_driver self.now }
    {
        matches!(self, Last::Driver { .. })
    }

    pub(crate) fn is_element(&self) -> bool
        ensures { result ≡ is_element self.now }
    {
        matches!(self, Last::Element { .. })
    }

    /// Whether it was a country element that another radio received.
    pub(crate) fn is_element_of_other(&self, radio: &RadioNo) -> bool
        ensures { result ≡ is_element_of_other self.now radio.now }
    {
        match self {
            Last::Element {
                radio: heard_by,
                ..
            } => !heard_by.is_same(radio),
            Last::Core | Last::User { .. } | Last::Driver { .. } => false,
        }
    }
}
