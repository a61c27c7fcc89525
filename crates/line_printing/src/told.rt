//! What the line of a request tells.

ghost use Rattle.std.specs.Prelude.{◌≡◌};
ghost use Rattle.line_printing.specs.Printed.{hex_digits_of, printed_rules_of, setting_told, line_told, untold};

use chan_def::{ChanDef, Width};
use chan_flags::PowerSetting;
use freq_range::Rule;
use line_forms::Draft;
use reg_journal::Request;

/// What a line could tell where the request tells nothing.
fn untold<'a>() -> Draft<'a>
    ensures { result ≡ untold }
{
    let channel = ChanDef {
        control_khz: 1_000,
        width: Width::Noht,
        centre_khz: 1_000,
    };
    Draft::new().with_chan(channel).with_digits(b"00")
}

/// With the power of a setting told, in mBm, where it has one.
fn with_setting<'a>(d: &Draft<'a>, setting: PowerSetting) -> Draft<'a>
    ensures { result ≡ setting_told setting d.now }
{
    match setting {
        PowerSetting::Auto => d.same(),
        PowerSetting::Limit(power) => d.with_power(power),
        PowerSetting::Fixed(power) => d.with_power(power),
    }
}

/// What the line of the request tells, with these digits of hexadecimal.
pub fn draft_of<'a>(request: &Request, digits: &'a [u8]) -> Draft<'a>
    requires { digits.now ≡ hex_digits_of request.now }
    ensures { result ≡ line_told request.now }
{
    let d = untold();
    match request {
        Request::At(moment) => d.with_moment(*moment),
        Request::RadioAdd { radio, profile } => d.with_radio(*radio).with_profile(*profile),
        Request::RadioRules { radio, .. } => d.with_radio(*radio),
        Request::Element { radio, .. } => d.with_radio(*radio).with_digits(digits),
        Request::DriverHint { radio, alpha2 } => d.with_radio(*radio).with_code(*alpha2),
        Request::UserHint(alpha2) => d.with_code(*alpha2),
        Request::Radar { radio, chan } => d.with_radio(*radio).with_chan(*chan),
        Request::Indoor(_) => d,
        Request::IfaceAdd { radio, name, kind } => {
            d.with_radio(*radio).with_name(*name).with_kind(*kind)
        }
        Request::SetType { name, kind } => d.with_name(*name).with_kind(*kind),
        Request::SetPower { name, setting } => with_setting(&d.with_name(*name), *setting),
        Request::Start { name, chan, .. } => d.with_name(*name).with_chan(*chan),
        Request::Stop { name, .. } => d.with_name(*name),
        Request::Check { name, chan } => d.with_name(*name).with_chan(*chan),
        Request::GetReg => d,
        Request::RadioDel(radio) => d.with_radio(*radio),
        Request::Channels(radio) => d.with_radio(*radio),
        Request::RadioInfo(radio) => d.with_radio(*radio),
        Request::IfaceDel(name) => d.with_name(*name),
        Request::IfaceInfo(name) => d.with_name(*name),
    }
}

/// The rules that the request gives a radio.
pub fn rules_of(request: &Request) -> &[Rule]
    ensures { result.now ≡ printed_rules_of request.now }
{
    match request {
        Request::RadioRules { rules, .. } => rules.as_slice(),
        _ => &[],
    }
}
