//! The request of a line whose words are told.

ghost use Rattle.std.specs.Prelude.{◌≡◌, ◌≤◌, IfOk, OnErr};
ghost use Rattle.line_forms.specs.Forms.{is_deaf, is_self, request_of};
ghost use Rattle.line_forms.specs.Spelling.{hex_bytes, hex_value};
ghost use Rattle.line_forms.specs.declared.form.Form.TheVariants.{DriverHint, Element, IfaceAdd, RadioAdd, RadioRules, SetType};
ghost use Rattle.reg_journal.specs.Requests.{IsAskable};
ghost use Rattle.reg_journal.specs.declared.request.Request.TheVariants.{Check as AskCheck, Radar as AskRadar, SetPower as AskSetPower, Start as AskStart, Stop as AskStop};

use crate::draft::Draft;
use crate::form::{Extra, Form};
use crate::profiles::with_marks;
use chan_def::Kind;
use chan_flags::PowerSetting;
use freq_range::RuleList;
use reg_base::Bytes;
use reg_journal::Request;
use reg_lists::OutOfMemory;
use std::alloc::Global;

/// The value of a digit of hexadecimal.
fn hex_value(byte: u8) -> u8
    ensures value { result ≡ hex_value byte }
    ensures small { result ≤ 15 }
{
    if byte <= 57 {
        byte.saturating_sub(48)
    } else if byte <= 70 {
        byte.saturating_sub(55)
    } else if byte <= 102 {
        byte.saturating_sub(87)
    } else {
        0
    }
}

/// The bytes that the digits spell, two for each.
fn bytes_of_hex(alloc: Global, digits: &[u8]) -> Result<Bytes, OutOfMemory>
    ensures { IfOk result (λ bytes. bytes ≡ hex_bytes digits.now) }
{
    let mut bytes = Bytes::new(alloc);
    let mut left = digits;
    while let [a, b, rest @ ..] = left {
        bytes.push(hex_value(*a) * 16 + hex_value(*b))?;
        left = rest;
    }
    Ok(bytes)
}

/// What stands last of a radio, as its two marks.
fn marks(extra: Extra) -> (bool, bool)
    ensures self_managed { result.0 ≡ is_self extra }
    ensures deaf { result.1 ≡ is_deaf extra }
{
    match extra {
        Extra::Neither => (false, false),
        Extra::OnlySelf => (true, false),
        Extra::OnlyDeaf => (false, true),
        Extra::Both => (true, true),
    }
}

/// The request to add a radio.
fn radio_add(extra: Extra, d: &Draft<'_>) -> Request
    ensures asked { result ≡ request_of (RadioAdd extra) d.now }
    ensures askable { IsAskable result }
{
    let (self_managed, deaf) = marks(extra);
    let radio = d.radio();
    let _number = radio.get();
    Request::RadioAdd {
        radio,
        profile: with_marks(&d.profile(), self_managed, deaf),
    }
}

/// The request to start to operate as an interface of this kind.
fn start(kind: Kind, d: &Draft<'_>) -> Request
    ensures { result ≡ AskStart d.now.name kind d.now.chan }
{
    Request::Start {
        name: d.name(),
        kind,
        chan: d.chan(),
    }
}

/// The request to stop.
fn stop(kind: Kind, d: &Draft<'_>) -> Request
    ensures { result ≡ AskStop d.now.name kind }
{
    Request::Stop {
        name: d.name(),
        kind,
    }
}

/// The request to check a channel for radar (CAC).
fn check(d: &Draft<'_>) -> Request
    ensures { result ≡ AskCheck d.now.name d.now.chan }
{
    Request::Check {
        name: d.name(),
        chan: d.chan(),
    }
}

/// The request to set a power.
fn set_power(setting: PowerSetting, d: &Draft<'_>) -> Request
    ensures { result ≡ AskSetPower d.now.name setting }
{
    Request::SetPower {
        name: d.name(),
        setting,
    }
}

/// The request that a radio receives a country element with this body.
fn element(alloc: Global, d: &Draft<'_>) -> Result<Request, OutOfMemory>
    ensures { IfOk result (λ q. q ≡ request_of Element d.now) }
{
    let body = bytes_of_hex(alloc, d.digits())?;
    Ok(Request::Element {
        radio: d.radio(),
        body,
    })
}

/// The request that an interface comes.
fn iface_add(d: &Draft<'_>) -> Request
    ensures { result ≡ request_of IfaceAdd d.now }
{
    Request::IfaceAdd {
        radio: d.radio(),
        name: d.name(),
        kind: d.kind(),
    }
}

/// The request of a line of this form whose words tell this.
pub fn asked(alloc: Global, form: Form, d: &Draft<'_>) -> Result<Request, OutOfMemory>
    ensures asked { IfOk result (λ q. q ≡ request_of form d.now) }
    ensures askable { IfOk result IsAskable }
    ensures memory { OnErr result (form ≡ Element) }
{
    match form {
        Form::At => Ok(Request::At(d.moment())),
        Form::RadioAdd(extra) => Ok(radio_add(extra, d)),
        Form::RadioDel => Ok(Request::RadioDel(d.radio())),
        Form::RadioRules => Ok(no_rules(alloc, d)),
        Form::Element => element(alloc, d),
        Form::DriverHint => Ok(driver_hint(d)),
        Form::Radar(_) => Ok(radar(d)),
        Form::IndoorOn => Ok(Request::Indoor(true)),
        Form::IndoorOff => Ok(Request::Indoor(false)),
        Form::GetReg => Ok(Request::GetReg),
        Form::UserHint => Ok(Request::UserHint(d.code())),
        Form::RadioInfo => Ok(Request::RadioInfo(d.radio())),
        Form::ChannelsOf => Ok(Request::Channels(d.radio())),
        Form::IfaceAdd => Ok(iface_add(d)),
        Form::IfaceInfo => Ok(Request::IfaceInfo(d.name())),
        Form::IfaceDel => Ok(Request::IfaceDel(d.name())),
        Form::SetType => Ok(set_type(d)),
        Form::SetFreq(_) => Ok(start(Kind::Monitor, d)),
        Form::SetChannel(_) => Ok(start(Kind::Monitor, d)),
        Form::PowerAuto => Ok(set_power(PowerSetting::Auto, d)),
        Form::PowerLimit => Ok(set_power(PowerSetting::Limit(d.power()), d)),
        Form::PowerFixed => Ok(set_power(PowerSetting::Fixed(d.power()), d)),
        Form::CheckFreq(_) => Ok(check(d)),
        Form::CheckChannel(_) => Ok(check(d)),
        Form::ApStart(_) => Ok(start(Kind::Ap, d)),
        Form::ApStartHead(_) => Ok(start(Kind::Ap, d)),
        Form::ApStop => Ok(stop(Kind::Ap, d)),
        Form::IbssJoin(_) => Ok(start(Kind::Ibss, d)),
        Form::IbssLeave => Ok(stop(Kind::Ibss, d)),
        Form::MeshJoin(_) => Ok(start(Kind::Mesh, d)),
        Form::MeshLeave => Ok(stop(Kind::Mesh, d)),
        Form::Connect => Ok(start(Kind::Station, d)),
        Form::Disconnect => Ok(stop(Kind::Station, d)),
    }
}

/// The request that a radio gets no rules of its own.
fn no_rules(alloc: Global, d: &Draft<'_>) -> Request
    ensures { result ≡ request_of RadioRules d.now }
{
    Request::RadioRules {
        radio: d.radio(),
        rules: RuleList::new(alloc),
    }
}

/// The request of a driver's hint.
fn driver_hint(d: &Draft<'_>) -> Request
    ensures { result ≡ request_of DriverHint d.now }
{
    Request::DriverHint {
        radio: d.radio(),
        alpha2: d.code(),
    }
}

/// The request that a radio met radar.
fn radar(d: &Draft<'_>) -> Request
    ensures { result ≡ AskRadar d.now.radio d.now.chan }
{
    Request::Radar {
        radio: d.radio(),
        chan: d.chan(),
    }
}

/// The request that an interface becomes one of another kind.
fn set_type(d: &Draft<'_>) -> Request
    ensures { result ≡ request_of SetType d.now }
{
    Request::SetType {
        name: d.name(),
        kind: d.kind(),
    }
}
