//! Writes requests as messages.

ghost use Rattle.std.specs.Prelude.{◌≡◌, IfOk};
ghost use Rattle.nl_attrs.specs.Messages.{IsInRange};
ghost use Rattle.reg_journal.specs.Forms.{IsLineRequest};
ghost use Rattle.nl80211_cmds.specs.Drafts.{command_of, start_command, stop_command, told_by};
ghost use Rattle.nl80211_cmds.specs.Requests.{flags_of, message_by, message_of};

use crate::command::Command;
use crate::draft::{Draft, nothing_told};
use crate::field_writer::push_fields;
use chan_def::Kind;
use nl_attrs::{AttrList, Msg};
use reg_journal::Request;
use reg_lists::OutOfMemory;
use std::alloc::Global;

/// The flags of a request (`NLM_F_REQUEST`, `NLM_F_ACK`).
pub const REQUEST_FLAGS: u16 = 0x5;

/// The flags of a request for a dump (`NLM_F_DUMP` besides).
pub const DUMP_FLAGS: u16 = 0x305;

/// The command that starts an operation of this kind.
fn start_command(kind: Kind) -> Command
    ensures { result ≡ start_command kind }
{
    match kind {
        Kind::Ap => Command::StartAp,
        Kind::Ibss => Command::JoinIbss,
        Kind::Mesh => Command::JoinMesh,
        Kind::Station => Command::Connect,
        Kind::Monitor => Command::SetWiphyChannel,
    }
}

/// The command that stops an operation of this kind. None stops a monitor.
fn stop_command(kind: Kind) -> Command
    ensures { result ≡ stop_command kind }
{
    match kind {
        Kind::Ap | Kind::Monitor => Command::StopAp,
        Kind::Ibss => Command::LeaveIbss,
        Kind::Mesh => Command::LeaveMesh,
        Kind::Station => Command::Disconnect,
    }
}

/// The command of a request.
fn command_of(request: &Request) -> Command
    ensures { result ≡ command_of request.now }
{
    match request {
        Request::At(_) => Command::At,
        Request::RadioAdd { .. } => Command::RadioAdd,
        Request::RadioDel(_) => Command::RadioDel,
        Request::RadioRules { .. } => Command::RadioRules,
        Request::Element { .. } => Command::Element,
        Request::DriverHint { .. } => Command::DriverHint,
        Request::UserHint(_) => Command::ReqSetReg,
        Request::Radar { .. } => Command::Radar,
        Request::Indoor(_) => Command::Indoor,
        Request::IfaceAdd { .. } => Command::NewInterface,
        Request::IfaceDel(_) => Command::DelInterface,
        Request::SetType { .. } => Command::SetInterface,
        Request::SetPower { .. } => Command::SetWiphyPower,
        Request::Start { kind, .. } => start_command(*kind),
        Request::Stop { kind, .. } => stop_command(*kind),
        Request::Check { .. } => Command::RadarDetect,
        Request::GetReg => Command::GetReg,
        Request::Channels(_) => Command::GetChannels,
        Request::RadioInfo(_) => Command::GetWiphy,
        Request::IfaceInfo(_) => Command::GetInterface,
    }
}

/// What a request says of a radio.
fn told_by(alloc: Global, request: &Request) -> Result<Draft, OutOfMemory>
    ensures { IfOk result (λ d. d ≡ told_by request.now) }
{
    let mut d = nothing_told(alloc);
    match request {
        Request::GetReg => {}
        Request::At(moment) => d.moment = *moment,
        Request::UserHint(alpha2) => d.alpha2 = *alpha2,
        Request::Indoor(on) => d.on = *on,
        Request::RadioDel(radio) | Request::Channels(radio) | Request::RadioInfo(radio) => {
            d.radio = *radio;
        }
        Request::IfaceDel(name) | Request::IfaceInfo(name) | Request::Stop { name, .. } => {
            d.name = *name;
        }
        Request::RadioAdd { radio, profile } => {
            d.radio = *radio;
            d.profile = *profile;
        }
        Request::RadioRules { radio, rules } => {
            d.radio = *radio;
            d.rules.append(rules.as_slice())?;
        }
        Request::Element { radio, body } => {
            d.radio = *radio;
            d.body.append(body.as_slice())?;
        }
        Request::DriverHint { radio, alpha2 } => {
            d.radio = *radio;
            d.alpha2 = *alpha2;
        }
        Request::Radar { radio, chan } => {
            d.radio = *radio;
            d.chan = *chan;
        }
        Request::IfaceAdd { radio, name, kind } => {
            d.radio = *radio;
            d.name = *name;
            d.kind = *kind;
        }
        Request::SetType { name, kind } => {
            d.name = *name;
            d.kind = *kind;
        }
        Request::SetPower { name, setting } => {
            d.name = *name;
            d.setting = *setting;
        }
        Request::Start { name, chan, .. } | Request::Check { name, chan } => {
            d.name = *name;
            d.chan = *chan;
        }
    }
    Ok(d)
}

/// The message that asks a request, with this sequence number. The request is one that a line of a
/// script can ask.
pub fn msg_of_request(alloc: Global, request: &Request, seq: u32) -> Result<Msg, OutOfMemory>
    requires { IsLineRequest request.now }
    ensures message { IfOk result (λ m. m ≡ message_of request.now seq) }
    ensures in_range { IfOk result IsInRange }
{
    let command = command_of(request);
    let told = told_by(alloc, request)?;
    let mut attrs = AttrList::new(alloc);
    push_fields(&mut attrs, command.fields(), &told)?;
    let flags = if command.is_dump() {
        DUMP_FLAGS
    } else {
        REQUEST_FLAGS
    };
    Ok(Msg::Generic {
        family: command.family().number(),
        flags,
        seq,
        pid: 0,
        cmd: command.number(),
        version: 0,
        attrs,
    })
}
