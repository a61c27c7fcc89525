//! The code and the region of a domain.

ghost use Rattle.std.specs.Prelude.{◌≡◌, ◌↔◌, IsTrue};

/// A country's code of two bytes (ISO 3166-1 alpha-2), or `00` for the world.
#[derive(Clone, Copy, Debug, PartialEq, Eq)]
pub struct Alpha2 {
    pub a: u8,
    pub b: u8,
}

impl Alpha2 {
    ghost use Rattle.rule_tables.specs.Code.{IsCode, key};

    /// The code of the world's domain.
    pub const WORLD: Alpha2 = Alpha2 { a: b'0', b: b'0' };

    /// The code of a radio's custom rules.
    pub const CUSTOM: Alpha2 = Alpha2 { a: b'9', b: b'9' };

    /// The code of several domains together.
    pub const JOINED: Alpha2 = Alpha2 { a: b'9', b: b'8' };

    /// Whether it is two capital letters or `00`.
    pub fn is_code(&self) -> bool
        ensures { IsTrue result ↔ IsCode self.now }
    {
        self.a.is_ascii_uppercase() && self.b.is_ascii_uppercase()
            || self.a == b'0' && self.b == b'0'
    }

    /// The number by which codes are ordered: as their two bytes are.
    pub fn key(&self) -> u16
        ensures { result ≡ key self.now }
    {
        u16::from(self.a) * 256 + u16::from(self.b)
    }

    /// Whether both are the same code.
    pub fn is_same(&self, other: &Alpha2) -> bool
        ensures { IsTrue result ↔ (self.now ≡ other.now) }
    {
        self.a == other.a && self.b == other.b
    }
}

/// Whose rules of radar detection hold (`enum nl80211_dfs_regions`).
#[derive(Clone, Copy, Debug, PartialEq, Eq)]
pub enum Region {
    Unset,
    Fcc,
    Etsi,
    Jp,
}

impl Region {
    /// Whether both are the same region.
    pub fn is_same(self, other: Region) -> bool
        ensures { IsTrue result ↔ (self ≡ other) }
    {
        self == other
    }
}
