//! Answers by what a message says of them.

ghost use Rattle.std.specs.Prelude.{◌≡◌, ◌++◌, List};
ghost use Rattle.nl_attrs.specs.declared.attr.Attr.{Attr};
ghost use Rattle.reg_journal.specs.Forms.{IsShownAnswer};
ghost use Rattle.reg_journal.specs.declared.reply.Answer.{Answer};
ghost use Rattle.nl80211_replies.specs.Plain.{answer_attrs};
ghost use Rattle.reply_reading.specs.Typed.{IsTypedAnswer};
ghost use Rattle.reply_reading.specs.inner.Refusals.{answer_told};

use crate::narrow::{narrow16, narrow32};
use crate::payloads::{code_at, name_at, number_at, wide_at};
use crate::refusals::refusal_told;
use nl_attrs::Attr;
use radio_drv::Name;
use reg_hints::Treatment;
use reg_journal::{Answer, HintAnswer};
use rule_tables::Alpha2;

/// The answer with this code, which carries the number, the name, the code of a country or nothing.
fn answer_told(code: u32, number: u64, name: Name, alpha2: Alpha2) -> Answer
    ensures { result ≡ answer_told code number name alpha2 }
{
    match code {
        0 => Answer::Ok,
        1 => Answer::Hint(HintAnswer::Treated(Treatment::Replace)),
        2 => Answer::Hint(HintAnswer::Treated(Treatment::Intersect)),
        3 => Answer::Hint(HintAnswer::Treated(Treatment::Already)),
        4 => Answer::Hint(HintAnswer::Treated(Treatment::Ignore)),
        5 => Answer::Hint(HintAnswer::Own),
        6 => Answer::Started(narrow16(number)),
        7 => Answer::Checking(narrow32(number)),
        _ => Answer::Refused(refusal_told(code, number, name, alpha2)),
    }
}

/// The answer that the attributes begin with.
pub fn answer_in(attrs: &[Attr]) -> Answer
    ensures { (answer : Answer) (more : List Attr) → IsTypedAnswer answer → IsShownAnswer answer
        → attrs.now ≡ answer_attrs answer ++ more → result ≡ answer }
{
    answer_told(
        number_at(attrs, 0),
        wide_at(attrs, 1),
        name_at(attrs, 1),
        code_at(attrs, 1),
    )
}
