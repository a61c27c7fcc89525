//! Replies and faults of lines with their texts, written out by hand.

use iw_commands::{LineFault, fault_text, put_fault, put_reply, reply_text};
use radio_drv::Name;
use reg_base::Bytes;
use reg_hints::{RadioNo, Treatment};
use reg_journal::{Answer, Effect, Effects, HintAnswer, Refusal, Reply};
use rule_tables::Alpha2;
use std::alloc::Global;
use std::process::Abort;
use std::test::Fail;

const US: Alpha2 = Alpha2 { a: b'U', b: b'S' };

fn radio(rt: &impl Abort, n: u32) -> RadioNo {
    RadioNo::new(n).expect(rt, "a radio")
}

fn name(rt: &impl Abort, bytes: &[u8]) -> Name {
    Name::new(bytes).expect(rt, "a name")
}

/// The reply has this text.
fn says(rt: &impl Abort, alloc: Global, answer: Answer, wanted: &[u8]) {
    let reply = Reply::Plain {
        answer,
        effects: Effects::new(),
    };
    match reply_text(alloc, &reply) {
        Ok(text) => assert!(rt; text.as_slice() == wanted),
        Err(fault) => assert!(rt; false, "{fault:?}"),
    }
}

#[test]
fn texts_of_answers(rt: HostRuntime) {
    let answers: [(Answer, &[u8]); 14] = [
        (Answer::Ok, b"ok\n"),
        (
            Answer::Hint(HintAnswer::Treated(Treatment::Already)),
            b"hint already set\n",
        ),
        (Answer::Hint(HintAnswer::Own), b"hint own\n"),
        (Answer::Started(2300), b"started 2300\n"),
        (Answer::Checking(60_000), b"checking 60000\n"),
        (
            Answer::Refused(Refusal::MomentTooLarge(u64::MAX)),
            b"refused: moment too large 18446744073709551615\n",
        ),
        (
            Answer::Refused(Refusal::NoRadio(radio(&rt, 5))),
            b"refused: no radio phy5\n",
        ),
        (
            Answer::Refused(Refusal::NameTaken(name(&rt, b"wlan0"))),
            b"refused: name taken wlan0\n",
        ),
        (
            Answer::Refused(Refusal::NoIr(5_180_000)),
            b"refused: NO-IR 5180\n",
        ),
        (
            Answer::Refused(Refusal::NoCountry(US)),
            b"refused: no country US\n",
        ),
        (Answer::Refused(Refusal::NoRules), b"refused: no rules\n"),
        (
            Answer::Refused(Refusal::TooManyRules(33)),
            b"refused: too many rules 33\n",
        ),
        (
            Answer::Refused(Refusal::BadRule(0)),
            b"refused: bad rule 0\n",
        ),
        (
            Answer::Refused(Refusal::ElementNotLetters),
            b"refused: element not letters\n",
        ),
    ];
    for (answer, wanted) in answers {
        says(&rt, rt.alloc(), answer, wanted);
    }
}

#[test]
fn texts_of_effects_and_faults(rt: HostRuntime) -> Result<(), Fail> {
    let mut effects = Effects::new();
    assert!(rt; effects.push(Effect::Stopped(name(&rt, b"ap0"))));
    assert!(rt; effects.push(Effect::Dropped(name(&rt, b"ap1"))));
    assert!(rt; effects.push(Effect::Power(name(&rt, b"sta0"), 0)));
    let reply = Reply::Plain {
        answer: Answer::Hint(HintAnswer::Treated(Treatment::Replace)),
        effects,
    };
    let mut text = Bytes::new(rt.alloc());
    put_fault(&mut text, &LineFault::BadForm(4))?;
    put_reply(&mut text, &reply)?;
    let wanted =
        b"line fault: bad form word 4\nhint replaced\n\tstopped ap0\n\tdropped ap1\n\tpower sta0 0\n";
    assert!(rt; text.as_slice() == wanted.as_slice());
    let rows: [(LineFault, &[u8]); 5] = [
        (LineFault::TooLong, b"line fault: too long\n"),
        (LineFault::NotAscii, b"line fault: not ascii\n"),
        (LineFault::Unknown(3), b"line fault: unknown word 3\n"),
        (LineFault::BadNumber(2), b"line fault: bad number word 2\n"),
        (LineFault::Missing, b"line fault: missing word\n"),
    ];
    for (fault, wanted) in rows {
        let text = fault_text(rt.alloc(), &fault)?;
        assert!(rt; text.as_slice() == wanted);
    }
    Ok(())
}
