//! Commands, their numbers and their attributes.

ghost use Rattle.std.specs.Prelude.{◌≡◌};
ghost use Rattle.nl80211_cmds.specs.Commands.{is_command, numbered_command};
ghost use Rattle.std.specs.List.{find};

use crate::attribute::{
    ALPHA2, BODY, CENTER_FREQ1, CENTRE, CHANNEL_WIDTH, FREQ, IFNAME, IFTYPE, INDOOR, MOMENT, RADIO,
    REG_ALPHA2, RULES, TX_POWER_LEVEL, TX_POWER_SETTING, WIDTH, WIPHY, WIPHY_FREQ,
};
use crate::family::Family;
use crate::field::Field;

/// A command that is a request (`enum nl80211_commands`, and those to simulated radios).
#[derive(Clone, Copy, Debug, PartialEq, Eq)]
pub enum Command {
    GetWiphy,
    /// `NL80211_CMD_SET_WIPHY` with a power.
    SetWiphyPower,
    /// `NL80211_CMD_SET_WIPHY` with a channel.
    SetWiphyChannel,
    GetInterface,
    SetInterface,
    NewInterface,
    DelInterface,
    StartAp,
    StopAp,
    ReqSetReg,
    GetReg,
    JoinIbss,
    LeaveIbss,
    Connect,
    Disconnect,
    JoinMesh,
    LeaveMesh,
    RadarDetect,
    /// The moment.
    At,
    /// A radio comes.
    RadioAdd,
    /// A radio goes.
    RadioDel,
    /// A radio's custom rules.
    RadioRules,
    /// A country element.
    Element,
    /// A driver's hint.
    DriverHint,
    /// Radar.
    Radar,
    /// Indoors or not.
    Indoor,
    /// A radio's channels.
    GetChannels,
}

/// All commands.
pub const COMMANDS: [Command; 27] = [
    Command::GetWiphy,
    Command::SetWiphyPower,
    Command::SetWiphyChannel,
    Command::GetInterface,
    Command::SetInterface,
    Command::NewInterface,
    Command::DelInterface,
    Command::StartAp,
    Command::StopAp,
    Command::ReqSetReg,
    Command::GetReg,
    Command::JoinIbss,
    Command::LeaveIbss,
    Command::Connect,
    Command::Disconnect,
    Command::JoinMesh,
    Command::LeaveMesh,
    Command::RadarDetect,
    Command::At,
    Command::RadioAdd,
    Command::RadioDel,
    Command::RadioRules,
    Command::Element,
    Command::DriverHint,
    Command::Radar,
    Command::Indoor,
    Command::GetChannels,
];

impl Command {
    ghost use Rattle.nl80211_cmds.specs.Commands.{command_number, family_of, fields_of, is_command, is_dump};

    /// The family that it belongs to.
    pub fn family(self) -> Family
        ensures family { result ≡ family_of self }
    {
        match self {
            Command::At
            | Command::RadioAdd
            | Command::RadioDel
            | Command::RadioRules
            | Command::Element
            | Command::DriverHint
            | Command::Radar
            | Command::Indoor
            | Command::GetChannels => Family::Simulation,
            _ => Family::Nl80211,
        }
    }

    /// Its number in its family.
    pub fn number(self) -> u8
        ensures number { result ≡ command_number self }
    {
        match self {
            Command::GetWiphy => 1,
            Command::SetWiphyPower | Command::SetWiphyChannel => 2,
            Command::GetInterface => 5,
            Command::SetInterface => 6,
            Command::NewInterface => 7,
            Command::DelInterface => 8,
            Command::StartAp => 15,
            Command::StopAp => 16,
            Command::ReqSetReg => 27,
            Command::GetReg => 31,
            Command::JoinIbss => 43,
            Command::LeaveIbss => 44,
            Command::Connect => 46,
            Command::Disconnect => 48,
            Command::JoinMesh => 68,
            Command::LeaveMesh => 69,
            Command::RadarDetect => 94,
            Command::At => 1,
            Command::RadioAdd => 2,
            Command::RadioDel => 3,
            Command::RadioRules => 4,
            Command::Element => 5,
            Command::DriverHint => 6,
            Command::Radar => 7,
            Command::Indoor => 8,
            Command::GetChannels => 9,
        }
    }

    /// Whether it is of this family and has this number.
    fn is_numbered(self, family: u16, number: u8) -> bool
        ensures numbered { result ≡ is_command family number self }
    {
        self.family().number() == family && self.number() == number
    }

    /// Whether it is answered by a dump.
    pub fn is_dump(self) -> bool
        ensures dump { result ≡ is_dump self }
    {
        matches!(
            self,
            Command::GetWiphy | Command::GetInterface | Command::GetReg | Command::GetChannels
        )
    }

    /// What its attributes say, in their order.
    pub fn fields(self) -> &'static [Field]
        ensures fields { result.now ≡ fields_of self }
    {
        match self {
            Command::GetWiphy => &[Field::Radio(WIPHY)],
            Command::SetWiphyPower => {
                &[
                    Field::Name(IFNAME),
                    Field::Power(TX_POWER_SETTING, TX_POWER_LEVEL),
                ]
            }
            Command::Connect => {
                &[
                    Field::Name(IFNAME),
                    Field::PlainChan(WIPHY_FREQ, CHANNEL_WIDTH, CENTER_FREQ1),
                ]
            }
            Command::SetWiphyChannel
            | Command::StartAp
            | Command::JoinIbss
            | Command::JoinMesh
            | Command::RadarDetect => {
                &[
                    Field::Name(IFNAME),
                    Field::Chan(WIPHY_FREQ, CHANNEL_WIDTH, CENTER_FREQ1),
                ]
            }
            Command::GetInterface
            | Command::DelInterface
            | Command::StopAp
            | Command::LeaveIbss
            | Command::Disconnect
            | Command::LeaveMesh => &[Field::Name(IFNAME)],
            Command::SetInterface => &[Field::Name(IFNAME), Field::Kind(IFTYPE)],
            Command::NewInterface => {
                &[
                    Field::Radio(WIPHY),
                    Field::Name(IFNAME),
                    Field::Kind(IFTYPE),
                ]
            }
            Command::ReqSetReg => &[Field::Code(REG_ALPHA2)],
            Command::GetReg => &[],
            Command::At => &[Field::Moment(MOMENT)],
            Command::RadioAdd => &[Field::Radio(RADIO), Field::Profile],
            Command::RadioDel | Command::GetChannels => &[Field::Radio(RADIO)],
            Command::RadioRules => &[Field::Radio(RADIO), Field::Rules(RULES)],
            Command::Element => &[Field::Radio(RADIO), Field::Body(BODY)],
            Command::DriverHint => &[Field::Radio(RADIO), Field::Code(ALPHA2)],
            Command::Radar => &[Field::Radio(RADIO), Field::Chan(FREQ, WIDTH, CENTRE)],
            Command::Indoor => &[Field::Switch(INDOOR)],
        }
    }
}

/// The first of the commands that is of this family and has this number.
fn find_command(commands: &[Command], family: u16, number: u8) -> Option<Command>
    ensures { result ≡ find (is_command family number) commands.now }
{
    for command in commands {
        if command.is_numbered(family, number) {
            return Some(*command);
        }
    }
    None
}

/// The first command of this family with this number.
pub fn command_numbered(family: u16, number: u8) -> Option<Command>
    ensures { result ≡ numbered_command family number }
{
    find_command(&COMMANDS, family, number)
}
