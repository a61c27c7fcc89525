//! Which form a request is printed in.

ghost use Rattle.std.specs.Prelude.{◌≡◌};
ghost use Rattle.line_printing.specs.Printed.{extra_of, form_of, freq_of, start_form, stop_form};

use chan_def::{ChanDef, Kind, Width};
use chan_flags::PowerSetting;
use line_forms::{Extra, Form, Freq};
use reg_journal::Request;

/// How a channel is printed behind its frequency.
fn freq_of(c: &ChanDef) -> Freq
    ensures { result ≡ freq_of c.now }
{
    match c.width {
        Width::Noht => Freq::ByWord,
        Width::W20 if c.centre_khz == c.control_khz => Freq::Twenty,
        _ => Freq::Block,
    }
}

/// What is printed last of a radio.
fn extra_of(self_managed: bool, deaf: bool) -> Extra
    ensures { result ≡ extra_of self_managed deaf }
{
    match (self_managed, deaf) {
        (false, false) => Extra::Neither,
        (true, false) => Extra::OnlySelf,
        (false, true) => Extra::OnlyDeaf,
        (true, true) => Extra::Both,
    }
}

/// The form of the line by which an interface starts to operate.
fn start_form(kind: Kind, c: &ChanDef) -> Form
    ensures { result ≡ start_form kind c.now }
{
    match kind {
        Kind::Ap => Form::ApStart(freq_of(c)),
        Kind::Ibss => Form::IbssJoin(freq_of(c)),
        Kind::Mesh => Form::MeshJoin(freq_of(c)),
        Kind::Station => Form::Connect,
        Kind::Monitor => Form::SetFreq(freq_of(c)),
    }
}

/// The form of the line by which it stops. Monitors aren't stopped by a line.
fn stop_form(kind: Kind) -> Form
    ensures { result ≡ stop_form kind }
{
    match kind {
        Kind::Ap => Form::ApStop,
        Kind::Ibss => Form::IbssLeave,
        Kind::Mesh => Form::MeshLeave,
        Kind::Station | Kind::Monitor => Form::Disconnect,
    }
}

/// The form of the line of a request.
pub fn form_of(request: &Request) -> Form
    ensures { result ≡ form_of request.now }
{
    match request {
        Request::At(_) => Form::At,
        Request::RadioAdd { profile, .. } => {
            Form::RadioAdd(extra_of(profile.self_managed(), profile.deaf()))
        }
        Request::RadioDel(_) => Form::RadioDel,
        Request::RadioRules { .. } => Form::RadioRules,
        Request::Element { .. } => Form::Element,
        Request::DriverHint { .. } => Form::DriverHint,
        Request::UserHint(_) => Form::UserHint,
        Request::Radar { chan, .. } => Form::Radar(freq_of(chan)),
        Request::Indoor(true) => Form::IndoorOn,
        Request::Indoor(false) => Form::IndoorOff,
        Request::IfaceAdd { .. } => Form::IfaceAdd,
        Request::IfaceDel(_) => Form::IfaceDel,
        Request::SetType { .. } => Form::SetType,
        Request::SetPower { setting, .. } => match setting {
            PowerSetting::Auto => Form::PowerAuto,
            PowerSetting::Limit(_) => Form::PowerLimit,
            PowerSetting::Fixed(_) => Form::PowerFixed,
        },
        Request::Start { kind, chan, .. } => start_form(*kind, chan),
        Request::Stop { kind, .. } => stop_form(*kind),
        Request::Check { chan, .. } => Form::CheckFreq(freq_of(chan)),
        Request::GetReg => Form::GetReg,
        Request::Channels(_) => Form::ChannelsOf,
        Request::RadioInfo(_) => Form::RadioInfo,
        Request::IfaceInfo(_) => Form::IfaceInfo,
    }
}
