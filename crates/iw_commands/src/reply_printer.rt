//! Prints replies.

ghost use Rattle.std.specs.Prelude.{◌≡◌, ◌++◌, IfOk, OnOk};
ghost use Rattle.reg_base.specs.Texts.{line_of};
ghost use Rattle.iw_commands.specs.Printed.{KeepsFront, AppendsTextOf, IsTextOf, answer_text, effect_lines, effect_text, hint_text, plain_text};

use crate::dump_printer::{put_channels, put_iface_report, put_radio_report, put_sections};
use crate::pieces_printer::{put_labelled, put_number, put_text};
use crate::refusal_printer::put_refusal;
use reg_base::Bytes;
use reg_hints::Treatment;
use reg_journal::{Answer, Effect, HintAnswer, Reply};
use reg_lists::OutOfMemory;
use std::alloc::Global;

/// The text of the reply, each line with its newline: a line and then one for each effect, or a dump.
/// `OutOfMemory` is its one error.
pub fn reply_text(alloc: Global, reply: &Reply) -> Result<Bytes, OutOfMemory>
    ensures text { IfOk result (IsTextOf reply.now) }
{
    let mut text = Bytes::new(alloc);
    put_reply(&mut text, reply)?;
    Ok(text)
}

/// Appends that text. After `OutOfMemory` what was there still stands first, and a part of the text
/// may stand behind it.
#[tactic(auto, using(crate::proofs::Kept::steps))]
pub fn put_reply(out: &mut Bytes, reply: &Reply) -> Result<(), OutOfMemory>
    ensures text { OnOk result (AppendsTextOf reply.now out.old out.new) }
    ensures kept { KeepsFront out.old out.new }
{
    match reply {
        Reply::Plain { answer, effects } => put_plain(out, answer, effects.as_slice()),
        Reply::Regs(sections) => put_sections(out, sections.as_slice()),
        Reply::Channels { list, .. } => put_channels(out, list.as_slice()),
        Reply::Radio(report) => put_radio_report(out, report),
        Reply::Iface(report) => put_iface_report(out, report),
    }
}

/// Appends the line of an answer, and a line for each effect.
#[tactic(auto, using(crate::proofs::Kept::steps))]
fn put_plain(out: &mut Bytes, answer: &Answer, effects: &[Effect]) -> Result<(), OutOfMemory>
    ensures text { OnOk result (out.new ≡ out.old ++ plain_text answer.now effects.now) }
    ensures kept { KeepsFront out.old out.new }
{
    put_answer(out, answer)?;
    put_effects(out, effects)?;
    Ok(())
}

/// Appends the line of an answer.
#[tactic(auto, using(crate::proofs::Kept::steps))]
fn put_answer(out: &mut Bytes, answer: &Answer) -> Result<(), OutOfMemory>
    ensures text { OnOk result (out.new ≡ out.old ++ line_of (answer_text answer.now)) }
    ensures kept { KeepsFront out.old out.new }
{
    put_answer_text(out, answer)?;
    put_text(out, b"\n")?;
    Ok(())
}

/// Appends the text of an answer.
#[tactic(auto, using(crate::proofs::Kept::steps))]
fn put_answer_text(out: &mut Bytes, answer: &Answer) -> Result<(), OutOfMemory>
    ensures text { OnOk result (out.new ≡ out.old ++ answer_text answer.now) }
    ensures kept { KeepsFront out.old out.new }
{
    match answer {
        Answer::Ok => put_text(out, b"ok"),
        Answer::Hint(taken) => put_labelled(out, b"hint ", hint_text(*taken)),
        Answer::Started(power) => put_number(out, b"started ", u64::from(*power)),
        Answer::Checking(length) => put_number(out, b"checking ", u64::from(*length)),
        Answer::Refused(refusal) => {
            put_text(out, b"refused: ")?;
            put_refusal(out, refusal)
        }
    }
}

/// How a hint was taken, in words.
fn hint_text(taken: HintAnswer) -> &'static [u8]
    ensures { result.now ≡ hint_text taken }
{
    match taken {
        HintAnswer::Treated(Treatment::Replace) => b"replaced",
        HintAnswer::Treated(Treatment::Intersect) => b"intersected",
        HintAnswer::Treated(Treatment::Already) => b"already set",
        HintAnswer::Treated(Treatment::Ignore) => b"ignored",
        HintAnswer::Own => b"own",
    }
}

/// Appends the lines of effects.
#[tactic(auto, using(crate::proofs::Kept::steps))]
fn put_effects(out: &mut Bytes, effects: &[Effect]) -> Result<(), OutOfMemory>
    ensures text { OnOk result (out.new ≡ out.old ++ effect_lines effects.now) }
    ensures kept { KeepsFront out.old out.new }
{
    for effect in effects {
        put_effect(out, effect)?;
        put_text(out, b"\n")?;
    }
    Ok(())
}

/// Appends the text of an effect.
#[tactic(auto, using(crate::proofs::Kept::steps))]
fn put_effect(out: &mut Bytes, effect: &Effect) -> Result<(), OutOfMemory>
    ensures text { OnOk result (out.new ≡ out.old ++ effect_text effect.now) }
    ensures kept { KeepsFront out.old out.new }
{
    match effect {
        Effect::Stopped(name) => put_labelled(out, b"\tstopped ", name.as_bytes()),
        Effect::Dropped(name) => put_labelled(out, b"\tdropped ", name.as_bytes()),
        Effect::Power(name, power_mbm) => {
            put_labelled(out, b"\tpower ", name.as_bytes())?;
            put_number(out, b" ", u64::from(*power_mbm))
        }
    }
}
