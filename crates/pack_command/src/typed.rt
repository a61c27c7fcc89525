//! What the types say of a request that a line or a message asks.

ghost use Rattle.std.specs.Prelude.{◌<◌, ◌^◌, All};
ghost use Rattle.radio_drv.specs.Names.{IsName};
ghost use Rattle.reg_journal.specs.Forms.{IsLineRequest};
ghost use Rattle.reg_journal.specs.Requests.{FitsChannelFields, FitsPowerField, HasByteCode, IsRadioNo, IsTyped};
ghost use Rattle.chan_flags.specs.Profiles.{IsProfile};

use chan_def::ChanDef;
use chan_flags::{PowerSetting, Profile};
use radio_drv::Name;
use reg_hints::RadioNo;
use reg_journal::Request;
use rule_tables::Alpha2;

/// What the type says of a radio's number.
fn type_radio(radio: RadioNo)
    ensures { IsRadioNo radio }
{
    let _number = radio.get();
}

/// What the type says of a name.
fn type_name(name: &Name)
    ensures { IsName name.now }
{
    let _bytes = name.as_bytes();
}

/// What the type says of a profile.
fn type_profile(profile: &Profile)
    ensures { IsProfile profile.now }
{
    let _bands = profile.bands();
}

/// What the type says of a code.
fn type_code(code: Alpha2)
    ensures { HasByteCode code }
{}

/// What the type says of a channel.
fn type_channel(c: ChanDef)
    ensures { FitsChannelFields c }
{}

/// What the type says of the setting of a power.
fn type_setting(setting: PowerSetting)
    ensures { FitsPowerField setting }
{
    match setting {
        PowerSetting::Auto => {}
        PowerSetting::Limit(_power) => {}
        PowerSetting::Fixed(_power) => {}
    }
}

/// What the type says of bytes.
fn type_bytes(bytes: &[u8])
    ensures { All (λ byte. byte < 2 ^ 8) bytes.now }
{}

/// What the types say of a request, and of rules what makes them valid.
pub fn type_request(request: &Request)
    requires { IsLineRequest request.now }
    ensures { IsTyped request.now }
{
    match request {
        Request::At(moment) => {
            let _moment = *moment;
        }
        Request::RadioAdd { radio, profile } => {
            type_radio(*radio);
            type_profile(profile);
        }
        Request::Element { radio, body } => {
            type_radio(*radio);
            type_bytes(body.as_slice());
        }
        Request::DriverHint { radio, alpha2 } => {
            type_radio(*radio);
            type_code(*alpha2);
        }
        Request::UserHint(alpha2) => type_code(*alpha2),
        Request::Radar { radio, chan } => {
            type_radio(*radio);
            type_channel(*chan);
        }
        Request::IfaceAdd { radio, name, .. } => {
            type_radio(*radio);
            type_name(name);
        }
        Request::SetPower { name, setting } => {
            type_name(name);
            type_setting(*setting);
        }
        Request::Start { name, chan, .. } | Request::Check { name, chan } => {
            type_name(name);
            type_channel(*chan);
        }
        Request::SetType { name, .. } | Request::Stop { name, .. } => type_name(name),
        Request::IfaceDel(name) | Request::IfaceInfo(name) => type_name(name),
        Request::RadioDel(radio) | Request::RadioRules { radio, .. } => type_radio(*radio),
        Request::Channels(radio) | Request::RadioInfo(radio) => type_radio(*radio),
        Request::Indoor(_) | Request::GetReg => {}
    }
}
