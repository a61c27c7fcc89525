//! Which replies messages can tell.

ghost use Rattle.std.specs.Prelude.{◌≡◌, ◌≤◌, ◌↔◌, All, IsTrue, length};
ghost use Rattle.rule_intersect.specs.declared.row.Row.{Row};
ghost use Rattle.chan_flags.specs.declared.record.Chan.{Chan};
ghost use Rattle.dfs_states.specs.declared.dfs.Dfs.{Dfs};
ghost use Rattle.reg_journal.specs.Forms.{IsCodeCharacter, IsShownAnswer, IsShownCode, IsShownRefusal, IsShownSection, IsShownState, IsWholeChannel, IsWholeMhz};
ghost use Rattle.reply_reading.specs.Replies.{CanBeTold};

use chan_def::ChanDef;
use chan_flags::Chan;
use dfs_states::Dfs;
use reg_journal::{Answer, IfaceState, Refusal, Reply, Section};
use rule_intersect::{MOST_ROWS, Row};
use rule_tables::Alpha2;

/// Whether a frequency is whole MHz.
fn is_whole(khz: u32) -> bool
    ensures { IsTrue result ↔ IsWholeMhz khz }
{
    khz % 1_000 == 0
}

/// Whether both frequencies of a channel are whole MHz.
fn is_whole_channel(chan: ChanDef) -> bool
    ensures { IsTrue result ↔ IsWholeChannel chan }
{
    is_whole(chan.control_khz) && is_whole(chan.centre_khz)
}

/// Whether the byte is a capital letter or a digit.
fn is_code_character(byte: u8) -> bool
    ensures { IsTrue result ↔ IsCodeCharacter byte }
{
    (b'A' <= byte && byte <= b'Z') || (b'0' <= byte && byte <= b'9')
}

/// Whether a code is of capital letters and digits.
fn is_shown_code(code: Alpha2) -> bool
    ensures { IsTrue result ↔ IsShownCode code }
{
    is_code_character(code.a) && is_code_character(code.b)
}

/// Whether what a refusal carries can be told.
fn is_shown_refusal(refusal: &Refusal) -> bool
    ensures { IsTrue result ↔ IsShownRefusal refusal.now }
{
    match refusal {
        Refusal::RadioLacks(khz)
        | Refusal::NoRule(khz)
        | Refusal::Width(khz)
        | Refusal::NoOfdm(khz)
        | Refusal::NoIr(khz)
        | Refusal::NoOutdoor(khz)
        | Refusal::Radar(khz)
        | Refusal::Unchecked(khz) => is_whole(*khz),
        Refusal::NoCountry(code) => is_shown_code(*code),
        // A name can be told, as the clause of its bytes says.
        Refusal::NoInterface(name) | Refusal::NameTaken(name) => !name.as_bytes().is_empty(),
        _ => true,
    }
}

/// Whether what an answer carries can be told.
fn is_shown_answer(answer: &Answer) -> bool
    ensures { IsTrue result ↔ IsShownAnswer answer.now }
{
    match answer {
        Answer::Refused(refusal) => is_shown_refusal(refusal),
        Answer::Ok | Answer::Hint(_) | Answer::Started(_) | Answer::Checking(_) => true,
    }
}

/// Whether no row tells the length of a check.
fn are_unchecked(rows: &[Row]) -> bool
    ensures { IsTrue result ↔ All (λ (row : Row). row.check_ms ≡ 0) rows.now }
{
    rows.iter().all(|row| row.check_ms == 0)
}

/// Whether a section can be told.
fn is_shown_section(section: &Section) -> bool
    ensures { IsTrue result ↔ IsShownSection section.now }
{
    is_shown_code(section.alpha2)
        && section.rows.len() <= MOST_ROWS
        && are_unchecked(section.rows.as_slice())
}

/// Whether each section can be told.
fn are_shown_sections(sections: &[Section]) -> bool
    ensures { IsTrue result ↔ All IsShownSection sections.now }
{
    sections.iter().all(|section| is_shown_section(section))
}

/// Whether each channel is whole MHz.
fn are_whole_channels(list: &[(Chan, Dfs)]) -> bool
    ensures { IsTrue result ↔ All (λ (shown : Chan × Dfs). IsWholeMhz shown.0.khz) list.now }
{
    list.iter().all(|shown| is_whole(shown.0.khz))
}

/// Whether the channel on which an interface checks or operates is whole MHz.
fn is_shown_state(state: IfaceState) -> bool
    ensures { IsTrue result ↔ IsShownState state }
{
    match state {
        IfaceState::Idle => true,
        IfaceState::Checking { chan, .. } | IfaceState::Running { chan, .. } => {
            is_whole_channel(chan)
        }
    }
}

/// Whether messages can tell the reply.
pub fn can_be_told(reply: &Reply) -> bool
    ensures { IsTrue result ↔ CanBeTold reply.now }
{
    match reply {
        Reply::Plain { answer, .. } => is_shown_answer(answer),
        Reply::Regs(sections) => { !sections.is_empty() && are_shown_sections(sections.as_slice()) }
        Reply::Channels { list, .. } => !list.is_empty() && are_whole_channels(list.as_slice()),
        Reply::Radio(_) => true,
        Reply::Iface(report) => is_shown_state(report.state),
    }
}
