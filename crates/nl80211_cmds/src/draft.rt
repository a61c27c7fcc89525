//! What a message's attributes have said so far.

ghost use Rattle.std.specs.Prelude.{◌≡◌};
ghost use Rattle.nl80211_cmds.specs.Drafts.{nothing_told};

use chan_def::{ChanDef, Kind, Width};
use chan_flags::{Bands, PowerSetting, Profile};
use freq_range::RuleList;
use radio_drv::Name;
use reg_base::Bytes;
use reg_hints::RadioNo;
use rule_tables::Alpha2;
use std::alloc::Global;

/// What attributes have said so far, and in the place of what they haven't said something that
/// nobody reads.
#[derive(Debug, Drop)]
pub struct Draft {
    /// In ms.
    pub moment: u64,
    pub radio: RadioNo,
    pub name: Name,
    pub kind: Kind,
    pub alpha2: Alpha2,
    pub chan: ChanDef,
    pub setting: PowerSetting,
    pub on: bool,
    pub profile: Profile,
    pub body: Bytes,
    pub rules: RuleList,
}

/// The name that nobody reads.
fn no_name() -> Name
    ensures { result ≡ nothing_told.name }
{
    match Name::new(b"-") {
        Some(name) => name,
        None => unreachable!(),
    }
}

/// The radio that nobody reads.
fn no_radio() -> RadioNo
    ensures { result ≡ nothing_told.radio }
{
    match RadioNo::new(0) {
        Some(radio) => radio,
        None => unreachable!(),
    }
}

/// The profile that nobody reads.
fn no_profile() -> Profile
    ensures { result ≡ nothing_told.profile }
{
    let bands = Bands {
        ghz2: true,
        ghz5: false,
        ghz6: false,
    };
    match Profile::new(bands, 20, 0, 0, 1, false, false) {
        Some(profile) => profile,
        None => unreachable!(),
    }
}

/// Before anything is said.
pub fn nothing_told(alloc: Global) -> Draft
    ensures { result ≡ nothing_told }
{
    Draft {
        moment: 0,
        radio: no_radio(),
        name: no_name(),
        kind: Kind::Ap,
        alpha2: Alpha2::WORLD,
        chan: ChanDef {
            control_khz: 0,
            width: Width::Noht,
            centre_khz: 0,
        },
        setting: PowerSetting::Auto,
        on: false,
        profile: no_profile(),
        body: Bytes::new(alloc),
        rules: RuleList::new(alloc),
    }
}
