//! Replies as messages, with bytes that another program wrote by the format.

ghost use Rattle.std.specs.Prelude.{◌≤◌, length, IfOk};
ghost use Rattle.nl_attrs.specs.Messages.{spelled};
ghost use Rattle.nl80211_replies.specs.Dumps.{FitsMessages};

use crate::hex::{bytes_of, message_of};
use chan_def::{ChanDef, Kind, Width};
use chan_flags::{Bands, Chan, Fit, PowerSetting, Profile};
use dfs_states::Dfs;
use freq_range::RuleFlags;
use nl_attrs::{EncodeFault, Msg, put_message};
use nl80211_replies::msgs_of_reply;
use radio_drv::{IfIndex, Name};
use reg_base::Bytes;
use reg_hints::{RadioNo, Treatment};
use reg_journal::{
    Answer, ChanList, Effect, Effects, HintAnswer, IfaceList, IfaceReport, IfaceState, RadioReport,
    Refusal, Reply, RowList, Section, SectionList,
};
use reply_reading::reply_of;
use rule_intersect::Row;
use rule_tables::{Alpha2, Region};
use std::alloc::Global;
use std::process::Abort;
use std::test::Fail;

/// The reply to the request has these messages, and is read back from them.
fn is_told<R: Abort>(
    rt: &R,
    alloc: Global,
    request: &[u8],
    reply: &Reply,
    wanted: &[u8],
) -> Result<(), Fail>
    requires { FitsMessages reply.now }
{
    let request = message_of(alloc, request)?;
    let mut bytes = Bytes::new(alloc);
    let msgs = msgs_of_reply(alloc, &request, reply)?;
    for msg in msgs.as_slice() {
        put_message(&mut bytes, msg)?;
    }
    let wanted = bytes_of(alloc, wanted)?;
    assert!(rt; bytes.as_slice() == wanted.as_slice(), "{reply:?}");
    assert!(rt; reply_of(alloc, &msgs).is_ok(), "{reply:?}");
    Ok(())
}

const ASKED_REGS: &[u8] = b"14000000 20000503 02000000 00000000 1f000000";

const REGS: &[u8] =
    b"64000000 20000200 02000000 00000000 1f010000 07002100 55530000 05009200 01000000 \
    40002280 3c000080 08000100 00000000 08000200 009f2400 08000300 40b82500 08000400 \
    409c0000 08000500 00000000 08000600 b80b0000 08000700 00000000 a8000000 20000200 \
    02000000 00000000 1f010000 08000100 03000000 07002100 39380000 05009200 02000000 \
    7c002280 3c000080 08000100 18000000 08000200 30954e00 08000300 d01b5000 08000400 \
    80380100 08000500 00000000 08000600 b80b0000 08000700 e8030000 3c000180 08000100 \
    81080000 08000200 50c55300 08000300 b0205700 08000400 00710200 08000500 00000000 \
    08000600 b80b0000 08000700 60ea0000 14000000 03000200 02000000 00000000 00000000";

const ASKED_CHANNELS: &[u8] = b"1c000000 21000503 07000000 00000000 09000000 08000200 05000000";

const CHANNELS: &[u8] =
    b"50000000 21000200 07000000 00000000 0b010000 08000200 05000000 08000c00 6c090000 \
    08001400 80000000 08001500 d0070000 08001600 409c0000 0c001100 00000000 00000000 \
    05001700 00000000 5c000000 21000200 07000000 00000000 0b010000 08000200 05000000 \
    08000c00 8c140000 08001400 19000000 08001500 a4060000 08001600 80380100 0c001100 \
    60ea0000 00000000 05001700 01000000 0c000100 b0881c00 00000000 38000000 21000200 \
    07000000 00000000 0b010000 08000200 05000000 08000c00 a0140000 05001700 02000000 \
    0c000100 60ea0000 00000000 14000000 03000200 07000000 00000000 00000000";

const ASKED_RADIO: &[u8] = b"1c000000 20000503 09000000 00000000 01000000 08000100 02000000";

const RADIO: &[u8] =
    b"a0000000 20000200 09000000 00000000 03010000 08000100 02000000 09000200 70687932 \
    00000000 780000bf 08000300 03000000 08000400 a0000000 08000500 50000000 08000600 \
    b80b0000 08000700 02000000 08000800 01000000 20001980 08001200 61703000 0c001100 \
    01000000 00000000 08001a00 03000000 24001980 0a001200 6d657368 37000000 0c001100 \
    0c000000 00000000 08001a00 07000000 14000000 03000200 09000000 00000000 00000000";

const ASKED_IDLE: &[u8] = b"1c000000 20000503 0b000000 00000000 05000000 08000400 61703000";

const IDLE: &[u8] =
    b"48000000 20000200 0b000000 00000000 07010000 08000100 02000000 08000300 01000000 \
    08000400 61703000 08000500 03000000 08006100 00000000 0c0000bf 08001800 00000000 \
    14000000 03000200 0b000000 00000000 00000000";

const CHECKING: &[u8] =
    b"74000000 20000200 0b000000 00000000 07010000 08000100 02000000 08000300 01000000 \
    08000400 61703000 08000500 03000000 08006100 01000000 08006200 dc050000 300000bf \
    08001800 01000000 08000c00 8c140000 08000d00 03000000 08000e00 aa140000 0c001100 \
    48ee0000 00000000 14000000 03000200 0b000000 00000000 00000000";

const RUNNING: &[u8] =
    b"74000000 20000200 0b000000 00000000 07010000 08000100 02000000 08000300 01000000 \
    08000400 61703000 08000500 03000000 08006100 02000000 08006200 bc020000 300000bf \
    08001800 02000000 08000c00 6c090000 08000d00 00000000 08000e00 6c090000 0c001100 \
    bc020000 00000000 14000000 03000200 0b000000 00000000 00000000";

const ASKED_EFFECTS: &[u8] =
    b"34000000 21000500 04000000 00000000 07000000 08000200 00000000 08000c00 8c140000 \
    08000d00 01000000 08000e00 8c140000";

const EFFECTS: &[u8] =
    b"68000000 21000000 04000000 00000000 0a010000 08001000 00000000 14001380 08001000 \
    00000000 08001200 61703000 14001380 08001000 01000000 08001200 61703100 24001380 \
    08001000 02000000 09001200 73746130 00000000 0c001100 d0070000 00000000 24000000 \
    02000000 04000000 00000000 00000000 34000000 21000500 04000000 00000000";

const REFUSED: &[u8] =
    b"28000000 21000000 04000000 00000000 0a010000 08001000 28000000 0c001100 8c140000 \
    00000000 24000000 02000000 04000000 00000000 eaffffff 34000000 21000500 04000000 \
    00000000";

const ASKED_HINT: &[u8] = b"1c000000 20000500 01000000 00000000 1b000000 07002100 55530000";

const HINT: &[u8] =
    b"1c000000 21000000 01000000 00000000 0a010000 08001000 01000000 24000000 02000000 \
    01000000 00000000 00000000 1c000000 20000500 01000000 00000000";

const NO_COUNTRY: &[u8] =
    b"24000000 21000000 01000000 00000000 0a010000 08001000 2d000000 07000b00 55530000 \
    24000000 02000000 01000000 00000000 feffffff 1c000000 20000500 01000000 00000000";

const NO_IFACE: &[u8] =
    b"28000000 21000000 04000000 00000000 0a010000 08001000 18000000 0a001200 776c616e \
    30000000 24000000 02000000 04000000 00000000 edffffff 34000000 21000500 04000000 \
    00000000";

/// A row with these flags, this range, this width and this check time, in kHz and ms.
fn row(flags: RuleFlags, start_khz: u32, end_khz: u32, width_khz: u32, cac_ms: u32) -> Row {
    Row {
        start_khz,
        end_khz,
        width_khz,
        flags,
        eirp_mbm: 3000,
        cac_ms,
        check_ms: 0,
    }
}

/// No flag is set.
const PLAIN: RuleFlags = RuleFlags {
    no_ofdm: false,
    no_outdoor: false,
    dfs: false,
    no_ir: false,
    auto_bw: false,
};

#[test]
fn sections(rt: HostRuntime) -> Result<(), Fail> {
    let alloc = rt.alloc();
    let mut rows = RowList::new(alloc);
    rows.push(row(PLAIN, 2_400_000, 2_472_000, 40_000, 0))?;
    let mut own = RowList::new(alloc);
    let radar = RuleFlags {
        dfs: true,
        no_outdoor: true,
        ..PLAIN
    };
    let others = RuleFlags {
        no_ofdm: true,
        no_ir: true,
        auto_bw: true,
        ..PLAIN
    };
    own.push(row(radar, 5_150_000, 5_250_000, 80_000, 1_000))?;
    own.push(row(others, 5_490_000, 5_710_000, 160_000, 60_000))?;
    let mut sections = SectionList::new(alloc);
    sections.push(Section {
        radio: None,
        alpha2: Alpha2 { a: b'U', b: b'S' },
        region: Region::Fcc,
        rows,
    })?;
    sections.push(Section {
        radio: RadioNo::new(3),
        alpha2: Alpha2 { a: b'9', b: b'8' },
        region: Region::Etsi,
        rows: own,
    })?;
    is_told(&rt, alloc, ASKED_REGS, &Reply::Regs(sections), REGS)
}

#[test]
fn channels(rt: HostRuntime) -> Result<(), Fail> {
    let alloc = rt.alloc();
    let radio = RadioNo::new(5).ok_or("a radio")?;
    let fit = Fit {
        flags: RuleFlags {
            no_ir: true,
            ..PLAIN
        },
        limit_mbm: 2000,
        check_ms: 0,
        width_khz: 40_000,
    };
    let checked = Fit {
        flags: RuleFlags {
            no_ofdm: true,
            no_outdoor: true,
            dfs: true,
            ..PLAIN
        },
        limit_mbm: 1700,
        check_ms: 60_000,
        width_khz: 80_000,
    };
    let mut list = ChanList::new(alloc);
    list.push((chan(2_412_000, Some(fit)), Dfs::Usable))?;
    list.push((
        chan(5_260_000, Some(checked)),
        Dfs::Unavailable { until: 1_870_000 },
    ))?;
    list.push((chan(5_280_000, None), Dfs::Available { since: 60_000 }))?;
    is_told(
        &rt,
        alloc,
        ASKED_CHANNELS,
        &Reply::Channels { radio, list },
        CHANNELS,
    )
}

/// A channel by its centre in kHz.
fn chan(khz: u32, fit: Option<Fit>) -> Chan {
    Chan { khz, fit }
}

#[test]
fn radios(rt: HostRuntime) -> Result<(), Fail> {
    let alloc = rt.alloc();
    let bands = Bands {
        ghz2: true,
        ghz5: true,
        ghz6: false,
    };
    let mut ifaces = IfaceList::new(alloc);
    ifaces.push((Name::new(b"ap0").ok_or("a name")?, IfIndex(1), Kind::Ap))?;
    ifaces.push((
        Name::new(b"mesh7").ok_or("a name")?,
        IfIndex(12),
        Kind::Mesh,
    ))?;
    let report = RadioReport {
        radio: RadioNo::new(2).ok_or("a radio")?,
        profile: Profile::new(bands, 160, 80, 3000, 2, true, false).ok_or("a profile")?,
        ifaces,
    };
    is_told(&rt, alloc, ASKED_RADIO, &Reply::Radio(report), RADIO)
}

/// The first interface of a radio, in this state.
fn iface(setting: PowerSetting, state: IfaceState) -> Result<Reply, Fail>
    ensures { IfOk result FitsMessages }
{
    Ok(Reply::Iface(IfaceReport {
        name: Name::new(b"ap0").ok_or("a name")?,
        index: IfIndex(1),
        radio: RadioNo::new(2).ok_or("a radio")?,
        kind: Kind::Ap,
        setting,
        state,
    }))
}

#[test]
fn interfaces(rt: HostRuntime) -> Result<(), Fail> {
    let alloc = rt.alloc();
    let wide = ChanDef {
        control_khz: 5_260_000,
        width: Width::W80,
        centre_khz: 5_290_000,
    };
    let narrow = ChanDef {
        control_khz: 2_412_000,
        width: Width::Noht,
        centre_khz: 2_412_000,
    };
    let checking = IfaceState::Checking {
        chan: wide,
        until: 61_000,
    };
    let running = IfaceState::Running {
        chan: narrow,
        power_mbm: 700,
    };
    is_told(
        &rt,
        alloc,
        ASKED_IDLE,
        &iface(PowerSetting::Auto, IfaceState::Idle)?,
        IDLE,
    )?;
    is_told(
        &rt,
        alloc,
        ASKED_IDLE,
        &iface(PowerSetting::Limit(1500), checking)?,
        CHECKING,
    )?;
    is_told(
        &rt,
        alloc,
        ASKED_IDLE,
        &iface(PowerSetting::Fixed(700), running)?,
        RUNNING,
    )
}

/// A plain reply.
fn plain(answer: Answer, effects: &[Effect]) -> Reply
    ensures { FitsMessages result }
{
    let mut list = Effects::new();
    for effect in effects {
        let _ = list.push(*effect);
    }
    Reply::Plain {
        answer,
        effects: list,
    }
}

#[test]
fn plain_replies(rt: HostRuntime) -> Result<(), Fail> {
    let alloc = rt.alloc();
    let effects = [
        Effect::Stopped(Name::new(b"ap0").ok_or("a name")?),
        Effect::Dropped(Name::new(b"ap1").ok_or("a name")?),
        Effect::Power(Name::new(b"sta0").ok_or("a name")?, 2000),
    ];
    let code = Alpha2 { a: b'U', b: b'S' };
    let name = Name::new(b"wlan0").ok_or("a name")?;
    let replaced = Answer::Hint(HintAnswer::Treated(Treatment::Replace));
    let rows: [(&[u8], Answer, &[Effect], &[u8]); 5] = [
        (ASKED_EFFECTS, Answer::Ok, &effects, EFFECTS),
        (
            ASKED_EFFECTS,
            Answer::Refused(Refusal::Radar(5_260_000)),
            &[],
            REFUSED,
        ),
        (
            ASKED_EFFECTS,
            Answer::Refused(Refusal::NoInterface(name)),
            &[],
            NO_IFACE,
        ),
        (ASKED_HINT, replaced, &[], HINT),
        (
            ASKED_HINT,
            Answer::Refused(Refusal::NoCountry(code)),
            &[],
            NO_COUNTRY,
        ),
    ];
    for (request, answer, effects, wanted) in rows {
        is_told(&rt, alloc, request, &plain(answer, effects), wanted)?;
    }
    Ok(())
}
