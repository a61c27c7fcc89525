//! Lines with what they ask, and faulty lines with what is wrong with them, written out by hand.

ghost use Rattle.std.specs.Prelude.{◌≡◌, false};

use chan_def::{ChanDef, Kind, Width};
use chan_flags::PowerSetting;
use iw_commands::{Cut, LineCutter, LineFault, Lines, ReadLineFault, read_line};
use reg_journal::Request;
use rule_tables::Alpha2;
use std::alloc::Global;
use std::process::Abort;
use std::test::Fail;

const US: Alpha2 = Alpha2 { a: b'U', b: b'S' };

const fn chan(control_khz: u32, width: Width, centre_khz: u32) -> ChanDef {
    ChanDef {
        control_khz,
        width,
        centre_khz,
    }
}

/// What is asked, but for names and radios.
#[derive(Clone, Copy, PartialEq, Eq)]
enum Asked {
    Start(Kind, ChanDef),
    Check(ChanDef),
    Stop(Kind),
    Power(PowerSetting),
    Typed(Kind),
    Radar(ChanDef),
    Other,
}

fn what_is_asked(request: &Request) -> Asked {
    match request {
        Request::Start { kind, chan, .. } => Asked::Start(*kind, *chan),
        Request::Check { chan, .. } => Asked::Check(*chan),
        Request::Stop { kind, .. } => Asked::Stop(*kind),
        Request::SetPower { setting, .. } => Asked::Power(*setting),
        Request::SetType { kind, .. } => Asked::Typed(*kind),
        Request::Radar { chan, .. } => Asked::Radar(*chan),
        _ => Asked::Other,
    }
}

/// The line asks this.
fn asks(rt: &impl Abort, alloc: Global, line: &[u8], wanted: Asked) {
    match read_line(alloc, line) {
        Ok(Some(request)) => assert!(rt; what_is_asked(&request) == wanted, "{line:?}"),
        _ => assert!(rt; false, "{line:?}"),
    }
}

#[test]
fn channels_kinds_and_powers(rt: HostRuntime) {
    let rows: [(&[u8], Asked); 24] = [
        (
            b"radar phy0 5181",
            Asked::Radar(chan(5_181_000, Width::Noht, 5_181_000)),
        ),
        (
            b"radar phy0 5180 NOHT",
            Asked::Radar(chan(5_180_000, Width::Noht, 5_180_000)),
        ),
        (
            b"radar phy0 5180 20",
            Asked::Radar(chan(5_180_000, Width::W20, 5_180_000)),
        ),
        (
            b"radar phy7 5180 20 5190",
            Asked::Radar(chan(5_180_000, Width::W20, 5_190_000)),
        ),
        (
            b"radar phy0 5200 HT40-",
            Asked::Radar(chan(5_200_000, Width::W40, 5_190_000)),
        ),
        (
            b"radar phy0 5180 80MHz",
            Asked::Radar(chan(5_180_000, Width::W80, 5_210_000)),
        ),
        (
            b"radar phy0 5180 160MHz",
            Asked::Radar(chan(5_180_000, Width::W160, 5_250_000)),
        ),
        (
            b"radar phy0 5955 320 6105",
            Asked::Radar(chan(5_955_000, Width::W320, 6_105_000)),
        ),
        (
            b"iw dev w set channel 14 HT20",
            Asked::Start(Kind::Monitor, chan(2_484_000, Width::W20, 2_484_000)),
        ),
        (
            b"iw dev w set channel 36",
            Asked::Start(Kind::Monitor, chan(5_180_000, Width::Noht, 5_180_000)),
        ),
        (
            b"iw dev w set freq 2412 HT40+",
            Asked::Start(Kind::Monitor, chan(2_412_000, Width::W40, 2_422_000)),
        ),
        (
            b"iw dev w cac trigger channel 100 40 5510",
            Asked::Check(chan(5_500_000, Width::W40, 5_510_000)),
        ),
        (
            b"iw dev w ap start net 5180 100 2",
            Asked::Start(Kind::Ap, chan(5_180_000, Width::Noht, 5_180_000)),
        ),
        (
            b"iw  dev w ap\tstart net 5180 20 100 2 head 0aFF",
            Asked::Start(Kind::Ap, chan(5_180_000, Width::W20, 5_180_000)),
        ),
        (
            b"iw dev w ap start net 5180 160 5250 1 65535",
            Asked::Start(Kind::Ap, chan(5_180_000, Width::W160, 5_250_000)),
        ),
        (
            b"iw dev w ap start head 5180 40 5190",
            Asked::Start(Kind::Ap, chan(5_180_000, Width::Noht, 5_180_000)),
        ),
        (
            b"iw dev w ibss join net 2484 NOHT",
            Asked::Start(Kind::Ibss, chan(2_484_000, Width::Noht, 2_484_000)),
        ),
        (
            b"iw dev w mesh join net freq 2412",
            Asked::Start(Kind::Mesh, chan(2_412_000, Width::Noht, 2_412_000)),
        ),
        (
            b"iw dev w connect net 2412",
            Asked::Start(Kind::Station, chan(2_412_000, Width::Noht, 2_412_000)),
        ),
        (b"iw dev w disconnect", Asked::Stop(Kind::Station)),
        (
            b"iw dev w set txpower fixed 65535",
            Asked::Power(PowerSetting::Fixed(65_535)),
        ),
        (
            b"iw dev w set txpower auto",
            Asked::Power(PowerSetting::Auto),
        ),
        (b"iw dev w set type mp", Asked::Typed(Kind::Mesh)),
        (b"iw dev w set type station", Asked::Typed(Kind::Station)),
    ];
    for (line, wanted) in rows {
        asks(&rt, rt.alloc(), line, wanted);
    }
}

#[test]
fn other_requests(rt: HostRuntime) {
    let alloc = rt.alloc();
    assert!(rt;
        matches!(
            &read_line(alloc, b"\tat  120000 \t"),
            Ok(Some(Request::At(120_000)))
        )
    );
    assert!(rt;
        matches!(
            &read_line(alloc, b"indoor off"),
            Ok(Some(Request::Indoor(false)))
        )
    );
    assert!(rt; matches!(&read_line(alloc, b"iw reg get"), Ok(Some(Request::GetReg))));
    assert!(rt;
        matches!(&read_line(alloc, b"iw phy phy3 channels"), Ok(Some(Request::Channels(r))) if r.get() == 3)
    );
    assert!(rt;
        matches!(&read_line(alloc, b"driver phy1 US"), Ok(Some(Request::DriverHint { alpha2, .. })) if alpha2.is_same(&US))
    );
    match &read_line(
        alloc,
        b"radio add phy7 bands 2,5 width 160 radar 0 power 65535 contexts 8 self noie",
    ) {
        Ok(Some(Request::RadioAdd { radio, profile })) => {
            assert!(rt; radio.get() == 7 && profile.self_managed() && profile.deaf());
            assert!(rt;
                profile.width_mhz() == 160 && profile.contexts() == 8 && !profile.bands().ghz6
            );
        }
        _ => assert!(rt; false, "a radio"),
    }
    match &read_line(alloc, b"element phy0 474220240417") {
        Ok(Some(Request::Element { body, .. })) => assert!(rt;
            body.as_slice() == b"GB \x24\x04\x17".as_slice()
        ),
        _ => assert!(rt; false, "an element"),
    }
    match &read_line(
        alloc,
        b"radio rules phy0 (2400 - 2472 @ 40), (20);(5150 - 5250 @ 80), (23), DFS # x",
    ) {
        Ok(Some(Request::RadioRules { rules, .. })) => {
            assert!(rt; rules.len() == 2);
            assert!(rt;
                matches!(rules.get(1), Some(rule) if rule.flags.dfs && rule.eirp_mbm == 2300)
            );
        }
        _ => assert!(rt; false, "rules"),
    }
}

#[test]
fn faults(rt: HostRuntime) {
    let rows: [(&[u8], LineFault); 38] = [
        (b"at", LineFault::Missing),
        (b"at 01", LineFault::BadNumber(2)),
        (b"at 18446744073709551616", LineFault::BadForm(2)),
        (b"at 1 2", LineFault::Unknown(3)),
        (b"at 1\r", LineFault::NotAscii),
        (b"# caf\xc3\xa9", LineFault::NotAscii),
        (b"At 1", LineFault::Unknown(1)),
        (b"radio add phy8 bands 2", LineFault::BadForm(3)),
        (b"radio add phy0 bands 5,2", LineFault::BadForm(5)),
        (b"radio add phy0 bands 2 width 30", LineFault::BadForm(7)),
        (b"radio add phy0 bands 2 width x", LineFault::BadNumber(7)),
        (
            b"radio add phy0 bands 2 width 20 radar 0 power 65536",
            LineFault::BadForm(11),
        ),
        (
            b"radio add phy0 bands 2 width 20 radar 0 power 0 contexts 9",
            LineFault::BadForm(13),
        ),
        (
            b"radio add phy0 bands 2 width 20 radar 0 power 0 contexts 1 noie self",
            LineFault::Unknown(15),
        ),
        (b"radio rules phy0", LineFault::Missing),
        (
            b"radio rules phy0 (2400 - 2472 @ 40), (20);",
            LineFault::BadForm(4),
        ),
        (
            b"radio rules phy0 (2400 - 2472 @ 40), (20), PTP-ONLY",
            LineFault::BadForm(4),
        ),
        (b"element phy0 0", LineFault::BadForm(3)),
        (b"driver phy0 us", LineFault::BadForm(3)),
        (b"radar phy0 5180 foo", LineFault::BadNumber(4)),
        (b"radar phy0 5180 30", LineFault::BadForm(4)),
        (b"radar phy0 5180 20 foo", LineFault::BadNumber(5)),
        (b"radar phy0 5180 HT20 foo", LineFault::Unknown(5)),
        (b"radar phy0 2412 80MHz", LineFault::BadForm(4)),
        (b"radar phy0 10 HT40-", LineFault::BadForm(4)),
        (b"radar phy0 5180 40", LineFault::Missing),
        (b"iw reg fly", LineFault::Unknown(3)),
        (b"iw reg set", LineFault::Missing),
        (b"iw dev abcdefghijklmnop info", LineFault::BadForm(3)),
        (b"iw dev w set channel 15", LineFault::BadForm(6)),
        (b"iw dev w ap start net 5180", LineFault::Missing),
        (b"iw dev w ap start net 5180 x head 00", LineFault::Missing),
        (b"iw dev w ap start net 5180 100 2 x", LineFault::BadForm(8)),
        (b"iw dev w ap start net 5180 40 100 2", LineFault::Missing),
        (
            b"iw dev w ap start net 5180 40 5190 100 2 x",
            LineFault::Unknown(12),
        ),
        (
            b"iw dev w ap start net 5180 HT20 head 00",
            LineFault::BadNumber(9),
        ),
        (b"iw dev w connect net 5180 HT20", LineFault::Unknown(7)),
        (b"indoor up", LineFault::Unknown(2)),
    ];
    for (line, wanted) in rows {
        assert!(rt;
            matches!(&read_line(rt.alloc(), line), Err(ReadLineFault::Line(fault)) if *fault == wanted),
            "{line:?}"
        );
    }
}

#[test]
fn lines_that_ask_nothing_and_long_ones(rt: HostRuntime) {
    let lines: [&[u8]; 5] = [b"", b" \t ", b"#", b"\t # at 1", b"#at 1"];
    for line in lines {
        assert!(rt;
            matches!(&read_line(rt.alloc(), line), Ok(None)),
            "{line:?}"
        );
    }
    let mut line = [b' '; 4097];
    line[..4].copy_from_slice(b"at 7");
    assert!(rt;
        matches!(
            &read_line(rt.alloc(), &line[..4096]),
            Ok(Some(Request::At(7)))
        )
    );
    assert!(rt;
        matches!(
            &read_line(rt.alloc(), &line),
            Err(ReadLineFault::Line(LineFault::TooLong))
        )
    );
    let mut lines = Lines::new(b"at 1\n\n#\nat 2");
    assert!(rt; lines.next_line() == Some(b"at 1".as_slice()));
    assert!(rt; lines.next_line() == Some(b"".as_slice()));
    assert!(rt; lines.next_line() == Some(b"#".as_slice()));
    assert!(rt; lines.next_line() == Some(b"at 2".as_slice()));
    assert!(rt; lines.next_line() == None);
}

/// Pushes so many bytes that end no line.
fn fill(cutter: &mut LineCutter, count: usize)
    requires open { cutter.old.ended ≡ false }
    ensures open { cutter.new.ended ≡ false }
{
    for _ in 0..count {
        let _ended = cutter.push(b'x');
    }
}

#[test]
fn lines_cut_byte_by_byte(rt: HostRuntime) -> Result<(), Fail> {
    let mut cutter = LineCutter::new(rt.alloc())?;
    assert!(rt; !cutter.push(b'a'));
    assert!(rt; cutter.push(b'\n'));
    assert!(rt; matches!(cutter.line(), Cut::Whole(line) if line == b"a".as_slice()));
    cutter.clear();
    fill(&mut cutter, 4096);
    assert!(rt; matches!(cutter.line(), Cut::Whole(line) if line.len() == 4096));
    assert!(rt; !cutter.push(b'x'));
    assert!(rt; matches!(cutter.line(), Cut::TooLong));
    Ok(())
}
