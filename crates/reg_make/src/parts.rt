//! What made requests consist of.

ghost use Rattle.std.specs.Prelude.{◌≡◌, ◌≤◌, ◌<◌, IfOk};
ghost use Rattle.reg_make.specs.Made.{ap_name, channel, country, element_body, made_profile, sta_name};

use chan_def::{ChanDef, Width};
use chan_flags::{Bands, Profile};
use radio_drv::Name;
use reg_base::Bytes;
use reg_hints::RadioNo;
use reg_lists::OutOfMemory;
use rule_tables::Alpha2;
use std::alloc::Global;

/// The radio of this number.
pub(crate) fn radio(number: u32) -> RadioNo
    requires { number ≤ 7 }
    ensures { result ≡ number }
{
    match RadioNo::new(number) {
        Some(radio) => radio,
        None => unreachable!(),
    }
}

/// What each radio can do.
pub(crate) fn profile() -> Profile
    ensures { result ≡ made_profile }
{
    let bands = Bands {
        ghz2: true,
        ghz5: true,
        ghz6: false,
    };
    match Profile::new(bands, 160, 160, 3000, 8, false, false) {
        Some(profile) => profile,
        None => unreachable!(),
    }
}

/// The name of the radio's access point.
pub(crate) fn ap_name(radio: u32) -> Name
    requires { radio ≤ 7 }
    ensures { result ≡ ap_name radio }
{
    match Name::new(&[b'a', b'p', b'0' + radio as u8]) {
        Some(name) => name,
        None => unreachable!(),
    }
}

/// The name of its station.
pub(crate) fn sta_name(radio: u32) -> Name
    requires { radio ≤ 7 }
    ensures { result ≡ sta_name radio }
{
    match Name::new(&[b's', b't', b'a', b'0' + radio as u8]) {
        Some(name) => name,
        None => unreachable!(),
    }
}

/// The country that was drawn.
pub(crate) fn country(drawn: u32) -> Alpha2
    ensures { result ≡ country drawn }
{
    if drawn == 0 {
        Alpha2::WORLD
    } else if drawn == 1 {
        Alpha2 { a: b'U', b: b'S' }
    } else {
        Alpha2 { a: b'G', b: b'B' }
    }
}

/// The body of a country's element: its code, any place, and 4 channels from 36 on at 23 dBm.
pub(crate) fn element_body(alloc: Global, code: Alpha2) -> Result<Bytes, OutOfMemory>
    ensures { IfOk result (λ body. body ≡ element_body code) }
{
    let mut body = Bytes::new(alloc);
    body.append(&[code.a, code.b, 0x20, 0x24, 0x04, 0x17])?;
    Ok(body)
}

/// The channel of 20 MHz that was drawn, of eight from 5180 MHz on.
pub(crate) fn channel(drawn: u32) -> ChanDef
    requires { drawn < 8 }
    ensures { result ≡ channel drawn }
{
    let khz = 5_180_000 + 20_000 * drawn;
    ChanDef {
        control_khz: khz,
        width: Width::W20,
        centre_khz: khz,
    }
}
