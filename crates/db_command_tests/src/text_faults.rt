//! What is wrong with texts, and in which line.

use crate::calls::{converted, refuse};
use db_commands::{Conversion, InputFault, Status};
use db_text::{RuleTextFault, TextFault, TextKind, parse_rule};
use std::alloc::Global;
use std::test::Fail;

/// That kind of fault at that line.
const fn at(line: u64, kind: TextKind) -> InputFault {
    InputFault::Text(TextFault { line, kind })
}

#[test]
fn lines_are_judged_by_how_they_begin(rt: HostRuntime) -> Result<(), Fail> {
    refuse(
        &rt,
        rt.alloc(),
        Conversion::Compile,
        &[
            // a comment counts among a line's bytes
            (b"\n# \xff\n", at(2, TextKind::NotUtf8)),
            (b"\n\nfoo\n", at(3, TextKind::BadLine)),
            (b"vo_c\n", at(1, TextKind::BadLine)),
            // a rule, and an item, outside of its block
            (
                b"(2400 - 2472 @ 40), (30)\ncountry US:\n",
                at(1, TextKind::NoBlock),
            ),
            (
                b"wmmrule A:\n(2400 - 2472 @ 40), (30)\n",
                at(2, TextKind::NoBlock),
            ),
            (
                b"vo_c: cw_min=3, cw_max=7, aifsn=2, cot=2\n",
                at(1, TextKind::NoBlock),
            ),
            (
                b"wmmrule A:\ncountry US:\nvo_c:\n",
                at(3, TextKind::NoBlock),
            ),
        ],
    )
}

#[test]
fn a_line_has_at_most_4096_bytes(rt: HostRuntime) -> Result<(), Fail> {
    for (count, wanted) in [
        (4096, Status::Done),
        (4097, Status::Refused(at(1, TextKind::LineTooLong))),
    ] {
        let line = vec![in rt.alloc(); b'#'; count]?;
        let (status, _out) = converted(rt.alloc(), Conversion::Compile, line.as_slice(), 16)?;
        assert!(rt; status == wanted, "for {count} bytes");
    }
    Ok(())
}

#[test]
fn headers_are_judged(rt: HostRuntime) -> Result<(), Fail> {
    refuse(
        &rt,
        rt.alloc(),
        Conversion::Compile,
        &[
            (b"country us:\n", at(1, TextKind::BadCountry)),
            (b"country USA:\n", at(1, TextKind::BadCountry)),
            (b"country US,:\n", at(1, TextKind::BadCountry)),
            (b"country US\n", at(1, TextKind::BadCountry)),
            (b"country US: DFS-XX\n", at(1, TextKind::BadRegion)),
            (b"country US: DFS-FCC:\n", at(1, TextKind::BadRegion)),
            // a region that differs from that of an earlier header
            (
                b"country US: DFS-FCC\ncountry CA, US: DFS-JP\n",
                at(2, TextKind::RegionDiffers),
            ),
            (
                b"country US: DFS-FCC\ncountry US:\n",
                at(2, TextKind::RegionDiffers),
            ),
            // the first header of a country without rules, where no line is faulty
            (b"country US:\n", at(1, TextKind::NoRules)),
            (
                b"country US:\n\ncountry CA:\n(2400 - 2472 @ 40), (30)\n",
                at(1, TextKind::NoRules),
            ),
            (
                b"country US:\n(2400 - 2472 @ 40), (30)\ncountry CA:\ncountry MX:\n",
                at(3, TextKind::NoRules),
            ),
            (b"country US:\n\ncountry ca:\n", at(3, TextKind::BadCountry)),
        ],
    )
}

#[test]
fn bands_are_judged(rt: HostRuntime) -> Result<(), Fail> {
    refuse(
        &rt,
        rt.alloc(),
        Conversion::Compile,
        &[
            // an empty range, a width above the span, four decimals, too high, nothing there
            (
                b"country US:\n(2472 - 2400 @ 40), (30)\n",
                at(2, TextKind::BadBand),
            ),
            (
                b"country US:\n(0 - 2472 @ 40), (30)\n",
                at(2, TextKind::BadBand),
            ),
            (
                b"country US:\n(2400 - 2420 @ 40), (30)\n",
                at(2, TextKind::BadBand),
            ),
            (
                b"country US:\n(2400.0000 - 2472 @ 40), (30)\n",
                at(2, TextKind::BadBand),
            ),
            (
                b"country US:\n(2400 - 4294967.296 @ 40), (30)\n",
                at(2, TextKind::BadBand),
            ),
            (
                b"country US:\n(2400. - 2472 @ 40), (30)\n",
                at(2, TextKind::BadBand),
            ),
            (b"country US:\n()\n", at(2, TextKind::BadBand)),
        ],
    )
}

#[test]
fn powers_are_judged(rt: HostRuntime) -> Result<(), Fail> {
    refuse(
        &rt,
        rt.alloc(),
        Conversion::Compile,
        &[
            // dBm and milliwatts out of their range, three decimals, no comma
            (
                b"country US:\n(2400 - 2472 @ 40), (655.36)\n",
                at(2, TextKind::BadPower),
            ),
            (
                b"country US:\n(2400 - 2472 @ 40), (30.000)\n",
                at(2, TextKind::BadPower),
            ),
            (
                b"country US:\n(2400 - 2472 @ 40), (0 mW)\n",
                at(2, TextKind::BadPower),
            ),
            (
                b"country US:\n(2400 - 2472 @ 40), (1000001 mW)\n",
                at(2, TextKind::BadPower),
            ),
            (
                b"country US:\n(2400 - 2472 @ 40) (30)\n",
                at(2, TextKind::BadPower),
            ),
        ],
    )
}

#[test]
fn flags_are_judged(rt: HostRuntime) -> Result<(), Fail> {
    refuse(
        &rt,
        rt.alloc(),
        Conversion::Compile,
        &[
            // an unknown flag, and another fault that comes later; a comma without a flag
            (
                b"country US:\n(2400 - 2472 @ 40), (30), LOUD\nx\n",
                at(2, TextKind::BadFlag),
            ),
            (
                b"country US:\n(2400 - 2472 @ 40), (30),\n",
                at(2, TextKind::BadFlag),
            ),
            // two WMM rules, of one name too
            (
                b"country US:\n(2400 - 2472 @ 40), (30), wmmrule=A, wmmrule=A\n",
                at(2, TextKind::BadFlag),
            ),
            (
                b"country US:\n(2400 - 2472 @ 40), (30), PTP-ONLY\n",
                at(2, TextKind::FlagNotInVersion),
            ),
            (
                b"country US:\n(2400 - 2472 @ 40), (30), NO-CCK\n",
                at(2, TextKind::FlagNotInVersion),
            ),
            (
                b"country US:\n(2400 - 2472 @ 40), (30), NO-INDOOR\n",
                at(2, TextKind::FlagNotInVersion),
            ),
            (
                b"country US:\n(2400 - 2472 @ 40), (30), PTMP-ONLY\n",
                at(2, TextKind::FlagNotInVersion),
            ),
            // the list is judged as a whole before its flags, and these before the name
            (
                b"country US:\n(2400 - 2472 @ 40), (30), PTP-ONLY, LOUD\n",
                at(2, TextKind::BadFlag),
            ),
            (
                b"country US:\n(2400 - 2472 @ 40), (30), wmmrule=A, NO-CCK\n",
                at(2, TextKind::FlagNotInVersion),
            ),
            (
                b"country US:\n(2400 - 2472 @ 40), (30), wmmrule=A\n",
                at(2, TextKind::NoWmm),
            ),
        ],
    )
}

#[test]
fn wmm_rules_are_judged(rt: HostRuntime) -> Result<(), Fail> {
    refuse(
        &rt,
        rt.alloc(),
        Conversion::Compile,
        &[
            (b"wmmrule :\n", at(1, TextKind::BadWmm)),
            (b"wmmrule A: x\n", at(1, TextKind::BadWmm)),
            (b"wmmrule \xc3\xa9:\n", at(1, TextKind::BadWmm)),
            // windows that aren't 2^e - 1, or don't rise; an AIFSN of 0; too long a COT
            (
                b"wmmrule A:\nvo_c: cw_min=2, cw_max=7, aifsn=2, cot=2\n",
                at(2, TextKind::BadWmm),
            ),
            (
                b"wmmrule A:\nvo_c: cw_min=7, cw_max=7, aifsn=2, cot=2\n",
                at(2, TextKind::BadWmm),
            ),
            (
                b"wmmrule A:\nvo_c: cw_min=3, cw_max=65535, aifsn=2, cot=2\n",
                at(2, TextKind::BadWmm),
            ),
            (
                b"wmmrule A:\nvo_c: cw_min=3, cw_max=7, aifsn=0, cot=2\n",
                at(2, TextKind::BadWmm),
            ),
            (
                b"wmmrule A:\nvo_c: cw_min=3, cw_max=7, aifsn=2, cot=65536\n",
                at(2, TextKind::BadWmm),
            ),
            // an item that was there before
            (
                b"wmmrule A:\nvo_c: cw_min=3, cw_max=7, aifsn=2, cot=2\nvo_c: cw_min=3, cw_max=7, aifsn=2, cot=2\n",
                at(3, TextKind::BadWmm),
            ),
            (
                b"wmmrule A:\nwmmrule B:\nwmmrule A:\n",
                at(3, TextKind::WmmTwice),
            ),
            // seven items
            (
                b"wmmrule A:\nvo_c:cw_min=3,cw_max=7,aifsn=2,cot=2\nvi_c:cw_min=3,cw_max=7,aifsn=2,cot=2\nbe_c:cw_min=3,cw_max=7,aifsn=2,cot=2\nbk_c:cw_min=3,cw_max=7,aifsn=2,cot=2\nvo_ap:cw_min=3,cw_max=7,aifsn=2,cot=2\nvi_ap:cw_min=3,cw_max=7,aifsn=2,cot=2\nbe_ap:cw_min=3,cw_max=7,aifsn=2,cot=2\n",
                at(1, TextKind::WmmShort),
            ),
            // a faulty line comes before a header that is left short
            (b"wmmrule A:\nfoo\n", at(2, TextKind::BadLine)),
        ],
    )
}

/// A country with so many rules, in the lines from 2 on; another one has a header of its own above the
/// last of them.
fn many_rules(alloc: Global, count: u32) -> Result<String, Fail> {
    let mut text = String::from_str(alloc, "country US, CA:\n")?;
    for k in 0..count {
        let start = k + 1;
        let rule = format!(in alloc; "({start} - 3000 @ 20), (20)\n")?;
        text.push_str(rule.as_str())?;
    }
    Ok(text)
}

#[test]
fn a_country_has_at_most_128_rules(rt: HostRuntime) -> Result<(), Fail> {
    for (count, more, wanted) in [
        (128, "", Status::Done),
        (129, "", Status::Refused(at(130, TextKind::TooManyRules))),
        // in its third header, while another country has room
        (
            127,
            "country US:\n(500 - 600 @ 20), (20)\ncountry MX, US:\n(600 - 700 @ 20), (20)\n",
            Status::Refused(at(132, TextKind::TooManyRules)),
        ),
        // a rule that is there already isn't the 129th
        (
            128,
            "country MX, US:\n(1 - 3000 @ 20), (20)\n",
            Status::Done,
        ),
    ] {
        let mut text = many_rules(rt.alloc(), count)?;
        text.push_str(more)?;
        let (status, _out) = converted(rt.alloc(), Conversion::Compile, text.as_bytes(), 16)?;
        assert!(rt; status == wanted, "for {count} rules");
    }
    Ok(())
}

#[test]
fn one_rule_is_judged_by_itself(rt: HostRuntime) -> Result<(), Fail> {
    let texts: [(&[u8], TextKind); 9] = [
        (b"", TextKind::BadLine),
        (b"country US:", TextKind::BadLine),
        (b"\xff", TextKind::NotUtf8),
        (b"(2472 - 2400 @ 40), (30)", TextKind::BadBand),
        (b"(2400 - 2472 @ 40), (656)", TextKind::BadPower),
        (b"(2400 - 2472 @ 40), (30), LOUD", TextKind::BadFlag),
        (b"(2400 - 2472 @ 40), (30), wmmrule=A", TextKind::BadFlag),
        (
            b"(2400 - 2472 @ 40), (30), PTP-ONLY, wmmrule=A",
            TextKind::BadFlag,
        ),
        (
            b"(2400 - 2472 @ 40), (30), PTP-ONLY",
            TextKind::FlagNotInVersion,
        ),
    ];
    for (row, (text, kind)) in texts.iter().enumerate() {
        let answer = parse_rule(rt.alloc(), text);
        assert!(rt; answer == Err(RuleTextFault::Kind(*kind)), "row {row}");
    }
    let long = vec![in rt.alloc(); b'#'; 4097]?;
    let answer = parse_rule(rt.alloc(), long.as_slice());
    assert!(rt; answer == Err(RuleTextFault::Kind(TextKind::LineTooLong)));
    Ok(())
}
