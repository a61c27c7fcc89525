//! Reads messages that are requests.

ghost use Rattle.std.specs.Prelude.{◌≡◌, IfOk, IfErr, MatchOption, MatchBool};
ghost use Rattle.reg_journal.specs.Forms.{IsLineRequest};
ghost use Rattle.reg_journal.specs.declared.request.Request.{Request};
ghost use Rattle.reg_journal.specs.declared.request.Request.TheVariants.{SetPower, Start, Stop};
ghost use Rattle.nl80211_cmds.specs.Drafts.{asked_request};
ghost use Rattle.nl80211_cmds.specs.Requests.{MsgAsks, GivesRequest, IsMeant, IsOthersHint, IsRequestFault, IsUsersHint};
ghost use Rattle.nl80211_cmds.specs.inner.Reading.{IsAnswerBy, IsNotSupported, Supports, main_command};
ghost use Rattle.nl80211_cmds.specs.declared.command.Command.{Command};

use crate::attribute::{TX_POWER_SETTING, USER_REG_HINT_TYPE, WIPHY_FREQ};
use crate::command::{Command, command_numbered};
use crate::draft::{Draft, nothing_told};
use crate::fault::{FieldFault, INVALID, NOT_SUPPORTED, RequestFault};
use crate::field_reader::read_fields;
use crate::values::payload_of;
use chan_def::Kind;
use nl_attrs::{Attr, Msg};
use reg_journal::Request;
use std::alloc::Global;

/// The start of an operation.
fn start(d: Draft, kind: Kind) -> Request
    ensures { result ≡ Start d.name kind d.chan }
{
    let Draft { name, chan, .. } = d;
    Request::Start { name, kind, chan }
}

/// The end of an operation.
fn stop(d: Draft, kind: Kind) -> Request
    ensures { result ≡ Stop d.name kind }
{
    Request::Stop { name: d.name, kind }
}

/// How power is set.
fn set_power(d: Draft) -> Request
    ensures { result ≡ SetPower d.name d.setting }
{
    Request::SetPower {
        name: d.name,
        setting: d.setting,
    }
}

/// The request that a command makes of what its attributes said.
fn asked_request(command: Command, d: Draft) -> Request
    ensures { result ≡ asked_request command d }
{
    let (radio, name, kind, chan) = (d.radio, d.name, d.kind, d.chan);
    match command {
        Command::GetWiphy => Request::RadioInfo(radio),
        Command::SetWiphyPower => set_power(d),
        Command::SetWiphyChannel => start(d, Kind::Monitor),
        Command::GetInterface => Request::IfaceInfo(name),
        Command::SetInterface => Request::SetType { name, kind },
        Command::NewInterface => Request::IfaceAdd { radio, name, kind },
        Command::DelInterface => Request::IfaceDel(name),
        Command::StartAp => start(d, Kind::Ap),
        Command::JoinIbss => start(d, Kind::Ibss),
        Command::JoinMesh => start(d, Kind::Mesh),
        Command::Connect => start(d, Kind::Station),
        Command::StopAp => stop(d, Kind::Ap),
        Command::LeaveIbss => stop(d, Kind::Ibss),
        Command::LeaveMesh => stop(d, Kind::Mesh),
        Command::Disconnect => stop(d, Kind::Station),
        Command::RadarDetect => Request::Check { name, chan },
        Command::ReqSetReg => Request::UserHint(d.alpha2),
        Command::GetReg => Request::GetReg,
        Command::At => Request::At(d.moment),
        Command::RadioAdd => Request::RadioAdd {
            radio,
            profile: d.profile,
        },
        Command::RadioDel => Request::RadioDel(radio),
        Command::RadioRules => Request::RadioRules {
            radio,
            rules: d.rules,
        },
        Command::Element => Request::Element {
            radio,
            body: d.body,
        },
        Command::DriverHint => Request::DriverHint {
            radio,
            alpha2: d.alpha2,
        },
        Command::Radar => Request::Radar { radio, chan },
        Command::Indoor => Request::Indoor(d.on),
        Command::GetChannels => Request::Channels(radio),
    }
}

/// Of two commands of one number, the one that the attributes mean.
fn meant(main: Command, attrs: &[Attr]) -> Option<Command>
    requires { main_command main ≡ main }
    ensures { MatchOption result ((c : Command) → main_command c ≡ main → IsMeant c attrs.now → ⊥)
        (λ c. (main_command c ≡ main) × IsMeant c attrs.now) }
{
    match main {
        Command::SetWiphyPower => {
            let has_power = payload_of(attrs, TX_POWER_SETTING).is_some();
            let has_channel = payload_of(attrs, WIPHY_FREQ).is_some();
            match (has_power, has_channel) {
                (true, false) => Some(Command::SetWiphyPower),
                (false, true) => Some(Command::SetWiphyChannel),
                _ => None,
            }
        }
        _ => Some(main),
    }
}

/// What a message asks that is of a command with the number of this one.
fn asked_by(
    alloc: Global,
    main: Command,
    flags: u16,
    attrs: &[Attr],
) -> Result<Request, RequestFault>
    requires { main_command main ≡ main }
    ensures { IsAnswerBy main flags attrs.now result }
{
    if flags % 2 == 0 {
        return Err(RequestFault::Errno(INVALID));
    }
    let Some(command) = meant(main, attrs) else {
        return Err(RequestFault::Errno(INVALID));
    };
    let mut draft = nothing_told(alloc);
    match read_fields(command.fields(), attrs, &mut draft) {
        Ok(()) => Ok(asked_request(command, draft)),
        Err(FieldFault::Malformed) => Err(RequestFault::Errno(INVALID)),
        Err(FieldFault::OutOfMemory) => Err(RequestFault::OutOfMemory),
    }
}

/// Whether another hint than a user's is named.
fn is_others_hint(attrs: &[Attr]) -> bool
    ensures { MatchBool result (IsOthersHint attrs.now) (IsUsersHint attrs.now) }
{
    match payload_of(attrs, USER_REG_HINT_TYPE) {
        Some(payload) => payload != [0, 0, 0, 0].as_slice(),
        None => false,
    }
}

/// The first command of that number, where the message is supported.
fn supported(family: u16, number: u8, attrs: &[Attr]) -> Option<Command>
    ensures { MatchOption result (IsNotSupported family number attrs.now) (λ c. Supports family number attrs.now c) }
{
    let command = command_numbered(family, number)?;
    if command == Command::ReqSetReg && is_others_hint(attrs) {
        return None;
    }
    Some(command)
}

/// The request that a message is. `RequestFault::Errno` is -95 where the message is of none of the
/// commands, or a hint that isn't a user's; else it is -22 where the flag REQUEST (`NLM_F_REQUEST`)
/// isn't set or the attributes don't tell what the command needs.
pub fn request_of(alloc: Global, m: &Msg) -> Result<Request, RequestFault>
    ensures asks { IfOk result (MsgAsks m.now) }
    ensures line { IfOk result IsLineRequest }
    ensures fault { IfErr result (IsRequestFault m.now) }
    // A message that asks something is that request, unless memory runs out.
    ensures asked { (q : Request) → MsgAsks m.now q → GivesRequest result q }
{
    match m {
        Msg::Generic {
            family,
            flags,
            cmd,
            attrs,
            ..
        } => match supported(*family, *cmd, attrs.as_slice()) {
            Some(command) => asked_by(alloc, command, *flags, attrs.as_slice()),
            None => Err(RequestFault::Errno(NOT_SUPPORTED)),
        },
        Msg::Error { .. } | Msg::Done { .. } => Err(RequestFault::Errno(NOT_SUPPORTED)),
    }
}
