//! The channels of a radio under one country and under two, and a verdict of each kind.

use crate::domains::{AUTO_BW, DFS, NO_IR, NO_OFDM, NO_OUTDOOR, domain, first, next, rule};
use chan_def::{ChanDef, Kind, Width, subchannels};
use chan_flags::{Bands, Chan, ChanRefusal, Fit, PowerSetting, Profile, RadioChans, Verdict};
use freq_range::{Rule, RuleFlags};
use std::alloc::Global;
use std::process::Abort;
use std::test::Fail;

/// Nobody may initiate.
const PASSIVE: RuleFlags = RuleFlags {
    no_ir: true,
    ..AUTO_BW
};

/// The world domain: 2402 to 2472 MHz, and two touching rules from 5170 to 5330 MHz where nobody
/// may initiate.
fn world() -> [Rule; 3] {
    [
        rule(2402, 2472, 40, 2000, RuleFlags::NONE),
        rule(5170, 5250, 80, 2000, PASSIVE),
        rule(
            5250,
            5330,
            80,
            2000,
            RuleFlags {
                dfs: true,
                ..PASSIVE
            },
        ),
    ]
}

/// A country with a rule of each flag but NO-IR.
fn country() -> [Rule; 5] {
    [
        rule(2402, 2482, 40, 2000, RuleFlags::NONE),
        rule(5170, 5250, 80, 2300, NO_OUTDOOR),
        Rule {
            cac_s: 600,
            ..rule(5250, 5330, 80, 2400, DFS)
        },
        rule(5490, 5590, 80, 3000, NO_OFDM),
        rule(5735, 5835, 80, 3000, RuleFlags::NONE),
    ]
}

/// Its neighbour, which is stricter in 2.4 GHz and above 5735 MHz.
fn neighbour() -> [Rule; 5] {
    [
        rule(2402, 2462, 20, 1800, RuleFlags::NONE),
        rule(5170, 5250, 80, 2100, RuleFlags::NONE),
        rule(5250, 5330, 80, 2000, DFS),
        rule(5490, 5590, 80, 3000, RuleFlags::NONE),
        rule(5735, 5835, 80, 3000, NO_IR),
    ]
}

/// A radio of 2.4 and 5 GHz, of this width, in MHz, and power, in mBm.
fn profile(rt: &impl Abort, width_mhz: u16, power_mbm: u16) -> Profile {
    let bands = Bands {
        ghz2: true,
        ghz5: true,
        ghz6: false,
    };
    Profile::new(bands, width_mhz, 0, power_mbm, 2, false, false).expect(rt, "a profile")
}

/// A channel with this control channel and this centre, in MHz.
fn channel(control: u16, width: Width, centre: u16) -> ChanDef {
    ChanDef {
        control_khz: u32::from(control) * 1000,
        width,
        centre_khz: u32::from(centre) * 1000,
    }
}

/// A channel by its control channel, its width and its centre, in MHz; the kind that is to operate there,
/// indoors or not, with a power that is set so; and the verdict.
type Judged = (u16, Width, u16, Kind, bool, PowerSetting, Verdict);

/// The verdicts under the country and its neighbour, for a radio of 2200 mBm, 80 MHz wide.
const UNDER_BOTH: [Judged; 14] = [
    // A channel that the radio lacks comes before the rule that is too narrow below it.
    (
        2457,
        Width::W40,
        2467,
        Kind::Ap,
        false,
        PowerSetting::Auto,
        Verdict::Refused(ChanRefusal::LacksChannel(2_477_000)),
    ),
    (
        5180,
        Width::W160,
        5250,
        Kind::Ap,
        false,
        PowerSetting::Auto,
        Verdict::Refused(ChanRefusal::LacksWidth(160)),
    ),
    (
        2467,
        Width::W20,
        2467,
        Kind::Ap,
        false,
        PowerSetting::Auto,
        Verdict::Refused(ChanRefusal::NoRule(2_467_000)),
    ),
    (
        2412,
        Width::W40,
        2422,
        Kind::Ap,
        false,
        PowerSetting::Auto,
        Verdict::Refused(ChanRefusal::TooNarrow(2_412_000)),
    ),
    (
        5520,
        Width::W40,
        5510,
        Kind::Ap,
        false,
        PowerSetting::Auto,
        Verdict::Refused(ChanRefusal::NoOfdm(5_500_000)),
    ),
    (
        5745,
        Width::W20,
        5745,
        Kind::Ap,
        false,
        PowerSetting::Auto,
        Verdict::Refused(ChanRefusal::NoIr(5_745_000)),
    ),
    (
        5220,
        Width::W80,
        5210,
        Kind::Ap,
        false,
        PowerSetting::Auto,
        Verdict::Refused(ChanRefusal::NoOutdoor(5_180_000)),
    ),
    // The country's 2300 mBm, the neighbour's 2100 and the radio's 2200.
    (
        5220,
        Width::W80,
        5210,
        Kind::Ap,
        true,
        PowerSetting::Auto,
        Verdict::Fits {
            power_mbm: 2100,
            check_ms: 0,
        },
    ),
    (
        5220,
        Width::W80,
        5210,
        Kind::Ap,
        true,
        PowerSetting::Limit(1500),
        Verdict::Fits {
            power_mbm: 1500,
            check_ms: 0,
        },
    ),
    (
        5220,
        Width::W80,
        5210,
        Kind::Ap,
        true,
        PowerSetting::Fixed(2100),
        Verdict::Fits {
            power_mbm: 2100,
            check_ms: 0,
        },
    ),
    (
        5220,
        Width::W80,
        5210,
        Kind::Ap,
        true,
        PowerSetting::Fixed(2101),
        Verdict::Refused(ChanRefusal::AboveLimit(2100)),
    ),
    // The country checks for ten minutes, the neighbour for one.
    (
        5260,
        Width::W40,
        5270,
        Kind::Mesh,
        false,
        PowerSetting::Auto,
        Verdict::Fits {
            power_mbm: 2000,
            check_ms: 600_000,
        },
    ),
    // A station and a monitor don't send first, so NO-IR doesn't bar them. The power is the radio's.
    (
        5745,
        Width::Noht,
        5745,
        Kind::Station,
        false,
        PowerSetting::Auto,
        Verdict::Fits {
            power_mbm: 2200,
            check_ms: 0,
        },
    ),
    (
        5745,
        Width::Noht,
        5745,
        Kind::Monitor,
        false,
        PowerSetting::Auto,
        Verdict::Fits {
            power_mbm: 2200,
            check_ms: 0,
        },
    ),
];

/// The verdicts under one rule of 6 GHz, for a radio 320 MHz wide.
const OF_320_MHZ: [Judged; 2] = [
    (
        5955,
        Width::W320,
        6105,
        Kind::Ap,
        false,
        PowerSetting::Auto,
        Verdict::Fits {
            power_mbm: 2300,
            check_ms: 0,
        },
    ),
    (
        7115,
        Width::W320,
        7265,
        Kind::Ap,
        false,
        PowerSetting::Auto,
        Verdict::Refused(ChanRefusal::LacksChannel(7_135_000)),
    ),
];

/// The channels are valid, and have these verdicts.
fn judges(rt: &impl Abort, chans: &RadioChans, rows: &[Judged]) {
    for (control, width, centre, kind, indoor, setting, verdict) in rows {
        let chan = channel(*control, *width, *centre);
        assert!(rt; chan.valid(), "{control} {centre}");
        let found = chans.verdict(&chan, *kind, *indoor, *setting);
        assert!(rt; found == *verdict, "{control} {centre}");
    }
}

/// Channels of the world's rules by their places, each with its centre, in kHz, and what fits there: the
/// width, in kHz, the flags and the check, in ms.
const PLACES: [(usize, u32, Option<(u32, RuleFlags, u32)>); 4] = [
    (0, 2_412_000, Some((40_000, RuleFlags::NONE, 0))),
    (11, 2_467_000, None),
    (14, 5_180_000, Some((160_000, NO_IR, 0))),
    (
        18,
        5_260_000,
        Some((160_000, RuleFlags { dfs: true, ..NO_IR }, 60_000)),
    ),
];

/// The channels stand at their places.
fn are_placed(
    rt: &impl Abort,
    chans: &RadioChans,
    rows: &[(usize, u32, Option<(u32, RuleFlags, u32)>)],
) {
    for (place, khz, fit) in rows {
        let fit = fit.map(|(width_khz, flags, check_ms)| Fit {
            flags,
            limit_mbm: 2000,
            check_ms,
            width_khz,
        });
        let chan = Chan { khz: *khz, fit };
        assert!(rt; chans.chan(*place) == Some(chan), "at {khz}");
    }
}

#[test]
fn one_country_gives_each_channel_its_governing_rule(rt: HostRuntime) -> Result<(), Fail> {
    let mut chans = RadioChans::new(rt.alloc(), profile(&rt, 160, 3000))?;
    assert!(rt; chans.len() == 42);
    let unfit = Chan {
        khz: 2_412_000,
        fit: None,
    };
    assert!(rt; chans.chan(0) == Some(unfit));
    chans.refresh(&first(rt.alloc(), &domain(rt.alloc(), &world())?)?);
    are_placed(&rt, &chans, &PLACES);
    assert!(rt; chans.chan(42).is_none());
    Ok(())
}

#[test]
fn each_channel_has_its_verdict(rt: HostRuntime) -> Result<(), Fail> {
    let alloc = rt.alloc();
    let table = next(
        &first(alloc, &domain(alloc, &country())?)?,
        &domain(alloc, &neighbour())?,
    )?;
    let mut chans = RadioChans::new(alloc, profile(&rt, 80, 2200))?;
    chans.refresh(&table);
    judges(&rt, &chans, &UNDER_BOTH);
    assert!(rt; chans.is_bound(5_260_000) && !chans.is_bound(5_180_000));
    let bands = Bands {
        ghz2: false,
        ghz5: false,
        ghz6: true,
    };
    let rules = [rule(5925, 7125, 320, 2300, RuleFlags::NONE)];
    let profile = Profile::new(bands, 320, 0, 3000, 1, false, false).expect(&rt, "a profile");
    let mut chans = RadioChans::new(alloc, profile)?;
    chans.refresh(&first(alloc, &domain(alloc, &rules)?)?);
    judges(&rt, &chans, &OF_320_MHZ);
    channels_of_320_mhz(&rt);
    Ok(())
}

/// Which channels of 320 MHz are valid, the subchannels of one, and the number of their width.
fn channels_of_320_mhz(rt: &impl Abort) {
    let wide = channel(5955, Width::W320, 6105);
    assert!(rt; !channel(6275, Width::W320, 6105).valid());
    assert!(rt; !channel(5180, Width::W320, 5330).valid());
    assert!(rt; wide.valid());
    assert!(rt; subchannels(&wide, 0) == Some(5_955_000));
    assert!(rt; subchannels(&wide, 15) == Some(6_255_000));
    assert!(rt; subchannels(&wide, 16).is_none());
    assert!(rt; Width::numbered(13) == Some(Width::W320));
    assert!(rt; Width::numbered(4).is_none());
    assert!(rt; Width::W320.number() == 13);
}
