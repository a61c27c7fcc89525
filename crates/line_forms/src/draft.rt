//! What the words of a line have told so far.

ghost use Rattle.std.specs.Prelude.{◌≡◌};
ghost use Rattle.line_forms.specs.Told.{nothing, tell_chan, tell_code, tell_digits, tell_kind, tell_moment, tell_name, tell_power, tell_profile, tell_radio};

use crate::profiles::first_profile;
use chan_def::{ChanDef, Kind, Width};
use chan_flags::Profile;
use radio_drv::Name;
use reg_hints::RadioNo;
use rule_tables::Alpha2;
use std::marker::Model;

/// What the words of a line have told so far.
#[derive(Drop)]
pub struct Draft<'a> {
    moment: u64,
    radio: RadioNo,
    name: Name,
    kind: Kind,
    code: Alpha2,
    digits: &'a [u8],
    chan: ChanDef,
    profile: Profile,
    power: u16,
}

impl<'a> Model for Draft<'a> {
    ghost use Rattle.line_forms.specs.Told.{Told};

    ghost Value = { Told };

    ghost view = { λ d. record {
      moment = d.moment;
      radio = d.radio;
      name = d.name;
      kind = d.kind;
      code = d.code;
      digits = d.digits.now;
      chan = d.chan;
      profile = d.profile;
      power = d.power;
    } };
}

/// The first radio.
fn first_radio() -> RadioNo
    ensures { result ≡ 0 }
{
    match RadioNo::new(0) {
        Some(radio) => radio,
        None => unreachable!(),
    }
}

/// A name that stands where none is told.
fn no_name() -> Name
    ensures { result ≡ nothing.name }
{
    match Name::new(b"-") {
        Some(name) => name,
        None => unreachable!(),
    }
}

impl<'a> Draft<'a> {
    /// Nothing is told.
    pub fn new() -> Draft<'a>
        ensures { result ≡ nothing }
    {
        Draft {
            moment: 0,
            radio: first_radio(),
            name: no_name(),
            kind: Kind::Ap,
            code: Alpha2::WORLD,
            digits: &[],
            chan: ChanDef {
                control_khz: 0,
                width: Width::Noht,
                centre_khz: 0,
            },
            profile: first_profile(),
            power: 0,
        }
    }

    /// The same.
    pub fn same(&self) -> Draft<'a>
        ensures { result ≡ self.now }
    {
        Draft { ..*self }
    }

    /// With a moment, in ms told.
    pub fn with_moment(&self, moment: u64) -> Draft<'a>
        ensures { result ≡ tell_moment moment self.now }
    {
        Draft { moment, ..*self }
    }

    /// With a radio told.
    pub fn with_radio(&self, radio: RadioNo) -> Draft<'a>
        ensures { result ≡ tell_radio radio self.now }
    {
        Draft { radio, ..*self }
    }

    /// With a name told.
    pub fn with_name(&self, name: Name) -> Draft<'a>
        ensures { result ≡ tell_name name self.now }
    {
        Draft { name, ..*self }
    }

    /// With a kind told.
    pub fn with_kind(&self, kind: Kind) -> Draft<'a>
        ensures { result ≡ tell_kind kind self.now }
    {
        Draft { kind, ..*self }
    }

    /// With a code told.
    pub fn with_code(&self, code: Alpha2) -> Draft<'a>
        ensures { result ≡ tell_code code self.now }
    {
        Draft { code, ..*self }
    }

    /// With digits of hexadecimal told.
    pub fn with_digits(&self, digits: &'a [u8]) -> Draft<'a>
        ensures { result ≡ tell_digits digits.now self.now }
    {
        Draft { digits, ..*self }
    }

    /// With a channel told.
    pub fn with_chan(&self, chan: ChanDef) -> Draft<'a>
        ensures { result ≡ tell_chan chan self.now }
    {
        Draft { chan, ..*self }
    }

    /// With what a radio can do told.
    pub fn with_profile(&self, profile: Profile) -> Draft<'a>
        ensures { result ≡ tell_profile profile self.now }
    {
        Draft { profile, ..*self }
    }

    /// With a power, in mBm told.
    pub fn with_power(&self, power: u16) -> Draft<'a>
        ensures { result ≡ tell_power power self.now }
    {
        Draft { power, ..*self }
    }

    /// The last of: a moment, in ms.
    pub fn moment(&self) -> u64
        ensures { result ≡ self.now.moment }
    {
        self.moment
    }

    /// The last of: a radio.
    pub fn radio(&self) -> RadioNo
        ensures { result ≡ self.now.radio }
    {
        self.radio
    }

    /// The last of: a name.
    pub fn name(&self) -> Name
        ensures { result ≡ self.now.name }
    {
        self.name
    }

    /// The last of: a kind.
    pub fn kind(&self) -> Kind
        ensures { result ≡ self.now.kind }
    {
        self.kind
    }

    /// The last of: a code.
    pub fn code(&self) -> Alpha2
        ensures { result ≡ self.now.code }
    {
        self.code
    }

    /// The last of: digits of hexadecimal.
    pub fn digits(&self) -> &'a [u8]
        ensures { result.now ≡ self.now.digits }
    {
        self.digits
    }

    /// The last of: a channel.
    pub fn chan(&self) -> ChanDef
        ensures { result ≡ self.now.chan }
    {
        self.chan
    }

    /// The last of: what a radio can do.
    pub fn profile(&self) -> Profile
        ensures { result ≡ self.now.profile }
    {
        self.profile
    }

    /// The last of: a power, in mBm.
    pub fn power(&self) -> u16
        ensures { result ≡ self.now.power }
    {
        self.power
    }
}
