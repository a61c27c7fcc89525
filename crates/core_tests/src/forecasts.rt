//! What starts and checks would come to, states of channels, and what is shown, worked out by hand from the rules.

use crate::calls::{RULES, Way, follow, opened};
use chan_def::{ChanDef, Kind, Width};
use dfs_states::Dfs;
use radio_drv::Name;
use reg_core::Core;
use reg_hints::RadioNo;
use reg_journal::Refusal;
use rule_tables::{Alpha2, Region};
use std::process::Abort;
use std::test::Fail;

/// A start by an access point on 20 MHz round this centre, in kHz, and what it would come to.
type StartRow = (u32, Result<u16, Refusal>);

/// A check, by the width, the control and the centre of its channel in kHz, and what it would come to.
type CheckRow = (Width, u32, u32, Result<(u32, u16), Refusal>);

/// The radio checked one channel, and had radar on another.
const BEFORE: &[u8] = b"> radio add phy0 bands 2,5 width 160 radar 160 power 2500 contexts 2
ok
> iw phy phy0 interface add ap0 type __ap
ok
> iw reg set US
hint replaced
> iw dev ap0 set txpower fixed 2350
ok
> iw dev ap0 cac trigger freq 5260
checking 60000
> at 60000
ok
> radar phy0 5280 20
ok
";

/// The channel of this width, by its control and its centre in kHz.
const fn channel(width: Width, control_khz: u32, centre_khz: u32) -> ChanDef {
    ChanDef {
        control_khz,
        width,
        centre_khz,
    }
}

const STARTS: [StartRow; 6] = [
    (2_413_000, Err(Refusal::BadChannel)),
    (5_955_000, Err(Refusal::RadioLacks(5_955_000))),
    (2_467_000, Err(Refusal::NoRule(2_467_000))),
    (5_180_000, Err(Refusal::Power(2300))),
    (5_260_000, Ok(2350)),
    (5_280_000, Err(Refusal::Radar(5_280_000))),
];

const CHECKS: [CheckRow; 4] = [
    (Width::W20, 5_181_000, 5_181_000, Err(Refusal::BadChannel)),
    (
        Width::W20,
        5_260_000,
        5_260_000,
        Err(Refusal::NothingToCheck),
    ),
    (Width::W20, 5_300_000, 5_300_000, Ok((60_000, 2400))),
    (
        Width::W160,
        5_180_000,
        5_250_000,
        Err(Refusal::Radar(5_280_000)),
    ),
];

/// Whether a channel has each state, by the radio's number and the channel's centre in kHz.
const STATES: [(u32, u32, Option<Dfs>); 5] = [
    (0, 5_260_000, Some(Dfs::Available { since: 60_000 })),
    (0, 5_280_000, Some(Dfs::Unavailable { until: 1_860_000 })),
    (0, 5_300_000, Some(Dfs::Usable)),
    (0, 5_301_000, Some(Dfs::Usable)),
    (1, 5_260_000, None),
];

fn foretells_starts(rt: &impl Abort, core: &Core, name: &Name, rows: &[StartRow]) {
    for (khz, wanted) in rows {
        let told = core.would_start(name, Kind::Ap, &channel(Width::W20, *khz, *khz));
        assert!(rt; told == *wanted, "start on {khz}");
    }
}

fn foretells_checks(rt: &impl Abort, core: &Core, name: &Name, rows: &[CheckRow]) {
    for (width, control_khz, centre_khz, wanted) in rows {
        let told = core.would_check(name, &channel(*width, *control_khz, *centre_khz));
        assert!(rt; told == *wanted, "check of {control_khz}");
    }
}

fn tells_states(rt: &impl Abort, core: &Core, rows: &[(u32, u32, Option<Dfs>)]) {
    for (number, khz, wanted) in rows {
        let radio = RadioNo::new(*number).expect(rt, "a radio");
        assert!(rt;
            core.channel_state(radio, *khz) == *wanted,
            "state of {khz}"
        );
    }
}

#[test]
fn what_would_come_is_told(rt: HostRuntime) -> Result<(), Fail> {
    let alloc = rt.alloc();
    let (mut core, mut drivers) = opened(alloc, RULES, &[])?;
    let before = follow(alloc, Way::Step, &mut core, BEFORE, &mut drivers)?;
    assert!(rt; before);
    let name = Name::new(b"ap0").expect(&rt, "a name");
    foretells_starts(&rt, &core, &name, &STARTS);
    foretells_checks(&rt, &core, &name, &CHECKS);
    tells_states(&rt, &core, &STATES);
    let shown = core.shown(7)?;
    assert!(rt; shown.requests == 7 && shown.sections.len() == 1);
    let section = shown.sections.get(0).expect(&rt, "the global section");
    assert!(rt; section.radio.is_none() && section.alpha2 == Alpha2 { a: b'U', b: b'S' });
    assert!(rt; section.region == Region::Fcc && section.rows.len() == 3);
    Ok(())
}
