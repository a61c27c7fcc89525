//! The numbers of refusals, and Error messages.

ghost use Rattle.std.specs.Prelude.{◌≤◌, length};
ghost use Rattle.nl_attrs.specs.Messages.{spelled};

use crate::hex::{bytes_of, message_of};
use nl_attrs::{Msg, encode};
use nl80211_cmds::{code, errno, msg_of_errno};
use radio_drv::Name;
use reg_hints::RadioNo;
use reg_journal::Refusal;
use rule_tables::Alpha2;
use std::alloc::Global;
use std::process::Abort;
use std::test::Fail;

#[test]
fn numbers_of_refusals(rt: HostRuntime) -> Result<(), Fail> {
    let radio = RadioNo::new(3).ok_or("a radio")?;
    let name = Name::new(b"ap0").ok_or("a name")?;
    let refusals = [
        (Refusal::MomentBack(5), 20, -22),
        (Refusal::MomentTooLarge(5), 21, -34),
        (Refusal::NoRadio(radio), 22, -19),
        (Refusal::SlotUsed(radio), 23, -17),
        (Refusal::NoInterface(name), 24, -19),
        (Refusal::NameTaken(name), 25, -17),
        (Refusal::Full, 26, -23),
        (Refusal::WrongType, 27, -95),
        (Refusal::Busy, 28, -16),
        (Refusal::BadChannel, 29, -22),
        (Refusal::RadioLacks(5), 30, -22),
        (Refusal::RadioLacksWidth(5), 31, -22),
        (Refusal::RadioLacksContext(5), 32, -16),
        (Refusal::NoRule(5), 33, -22),
        (Refusal::Width(5), 34, -22),
        (Refusal::NoOfdm(5), 35, -22),
        (Refusal::NoIr(5), 36, -22),
        (Refusal::NoOutdoor(5), 37, -22),
        (Refusal::Power(5), 38, -34),
        (Refusal::RadioLacksRadarWidth(5), 39, -22),
        (Refusal::Radar(5), 40, -22),
        (Refusal::Unchecked(5), 41, -22),
        (Refusal::DriverFailed, 42, -5),
        (Refusal::NothingToCheck, 43, -114),
        (Refusal::NotRunning, 44, -2),
        (Refusal::NoCountry(Alpha2::WORLD), 45, -2),
        (Refusal::TooManyDomains, 46, -23),
        (Refusal::TooManyRows(5), 47, -23),
        (Refusal::NoRules, 48, -22),
        (Refusal::TooManyRules(5), 49, -22),
        (Refusal::BadRule(5), 50, -22),
        (Refusal::ElementShort(5), 51, -22),
        (Refusal::ElementOdd(5), 52, -22),
        (Refusal::ElementNotLetters, 53, -22),
    ];
    for (refusal, wanted, wanted_errno) in refusals {
        assert!(rt;
            (code(&refusal), errno(&refusal)) == (wanted, wanted_errno),
            "{refusal:?}"
        );
    }
    Ok(())
}

/// The moment 0 is asked for, and the answer that nothing is wrong, and one that something is.
const MOMENT: &[u8] = b"20000000 21000500 01000000 00000000 01000000 0c000100 00000000 00000000";

const FINE: &[u8] =
    b"24000000 02000000 01000000 00000000 00000000 20000000 21000500 01000000 00000000";

const WRONG: &[u8] =
    b"24000000 02000000 01000000 00000000 eaffffff 20000000 21000500 01000000 00000000";

/// The request is answered so with this errno.
fn is_answered<R: Abort>(
    rt: &R,
    alloc: Global,
    request: &Msg,
    errno: i32,
    text: &[u8],
) -> Result<(), Fail>
    requires { length (spelled request.now) ≤ 65536 }
{
    let answer = msg_of_errno(alloc, request, errno)?;
    assert!(rt; encode(alloc, &answer)?.as_slice() == bytes_of(alloc, text)?.as_slice());
    Ok(())
}

#[test]
fn error_messages(rt: HostRuntime) -> Result<(), Fail> {
    let request = message_of(rt.alloc(), MOMENT)?;
    is_answered(&rt, rt.alloc(), &request, 0, FINE)?;
    is_answered(&rt, rt.alloc(), &request, -22, WRONG)?;
    Ok(())
}
