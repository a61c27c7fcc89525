//! Answers as attributes.

ghost use Rattle.std.specs.Prelude.{◌≡◌, ◌/◌, ◌++◌, ◌∷◌, [], OnOk};
ghost use Rattle.reg_journal.specs.Codes.{code_of_answer};
ghost use Rattle.nl80211_replies.specs.Plain.{answer_attrs, answer_errno, answer_value, refusal_value, wide_attr};

use crate::attribute::{CODE, NAME, NUMBER};
use nl_attrs::{AttrList, Payload};
use nl80211_cmds::attribute::ALPHA2;
use nl80211_cmds::{code, errno, push_number, push_plain, push_text};
use reg_hints::Treatment;
use reg_journal::{Answer, HintAnswer, Refusal};
use reg_lists::OutOfMemory;

/// Appends a number in eight bytes.
pub fn push_wide(out: &mut AttrList, number: u64) -> Result<(), OutOfMemory>
    ensures { OnOk result (out.new ≡ out.old ++ wide_attr number ∷ []) }
{
    push_plain(out, NUMBER, Payload::U64(number))
}

/// Appends what a refusal tells. Subchannels are told in MHz.
fn push_refusal(out: &mut AttrList, refusal: &Refusal) -> Result<(), OutOfMemory>
    ensures { OnOk result (out.new ≡ out.old ++ refusal_value refusal.now) }
{
    match refusal {
        Refusal::MomentBack(n) | Refusal::MomentTooLarge(n) => push_wide(out, *n),
        Refusal::NoRadio(radio) | Refusal::SlotUsed(radio) => push_wide(
            out,
            u64::from(radio.get()),
        ),
        Refusal::NoInterface(name) | Refusal::NameTaken(name) => {
            push_text(out, NAME, name.as_bytes())
        }
        Refusal::RadioLacks(khz)
        | Refusal::NoRule(khz)
        | Refusal::Width(khz)
        | Refusal::NoOfdm(khz)
        | Refusal::NoIr(khz)
        | Refusal::NoOutdoor(khz)
        | Refusal::Radar(khz)
        | Refusal::Unchecked(khz) => push_wide(out, u64::from(*khz / 1_000)),
        Refusal::RadioLacksWidth(n) | Refusal::RadioLacksRadarWidth(n) | Refusal::Power(n) => {
            push_wide(out, u64::from(*n))
        }
        Refusal::RadioLacksContext(n) => push_wide(out, u64::from(*n)),
        Refusal::NoCountry(code) => push_text(out, ALPHA2, &[code.a, code.b]),
        Refusal::TooManyRows(n)
        | Refusal::TooManyRules(n)
        | Refusal::BadRule(n)
        | Refusal::ElementShort(n)
        | Refusal::ElementOdd(n) => push_wide(out, *n as u64),
        Refusal::Full
        | Refusal::WrongType
        | Refusal::Busy
        | Refusal::BadChannel
        | Refusal::DriverFailed
        | Refusal::NothingToCheck
        | Refusal::NotRunning
        | Refusal::TooManyDomains
        | Refusal::NoRules
        | Refusal::ElementNotLetters => Ok(()),
    }
}

/// The code of an answer.
fn answer_code(answer: &Answer) -> u8
    ensures { result ≡ code_of_answer answer.now }
{
    match answer {
        Answer::Ok => 0,
        Answer::Hint(HintAnswer::Treated(Treatment::Replace)) => 1,
        Answer::Hint(HintAnswer::Treated(Treatment::Intersect)) => 2,
        Answer::Hint(HintAnswer::Treated(Treatment::Already)) => 3,
        Answer::Hint(HintAnswer::Treated(Treatment::Ignore)) => 4,
        Answer::Hint(HintAnswer::Own) => 5,
        Answer::Started(_) => 6,
        Answer::Checking(_) => 7,
        Answer::Refused(refusal) => code(refusal),
    }
}

/// The errno of an answer: 0, or that of a refusal, below 0.
pub fn answer_errno(answer: &Answer) -> i32
    ensures { result ≡ answer_errno answer.now }
{
    match answer {
        Answer::Refused(refusal) => errno(refusal),
        Answer::Ok | Answer::Hint(_) | Answer::Started(_) | Answer::Checking(_) => 0,
    }
}

/// Appends what an answer tells besides its code.
fn push_value(out: &mut AttrList, answer: &Answer) -> Result<(), OutOfMemory>
    ensures { OnOk result (out.new ≡ out.old ++ answer_value answer.now) }
{
    match answer {
        Answer::Started(power) => push_wide(out, u64::from(*power)),
        Answer::Checking(length) => push_wide(out, u64::from(*length)),
        Answer::Refused(refusal) => push_refusal(out, refusal),
        Answer::Ok | Answer::Hint(_) => Ok(()),
    }
}

/// Appends the attributes of an answer.
pub fn push_answer(out: &mut AttrList, answer: &Answer) -> Result<(), OutOfMemory>
    ensures { OnOk result (out.new ≡ out.old ++ answer_attrs answer.now) }
{
    push_number(out, CODE, u32::from(answer_code(answer)))?;
    push_value(out, answer)
}
