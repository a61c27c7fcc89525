//! Notes on rules, worked out by hand from the channel table.

use db_lint::{RuleNote, lint};
use db_text::parse;
use rule_tables::Alpha2;
use std::test::Fail;

/// A rule that governs 5180 MHz, one that it hides, and one above all channels; and in the second
/// country a narrow rule, one that is narrow, has an AUTO-BW that allows no more and holds no channel,
/// and one with such an AUTO-BW alone.
const TEXT: &str = "country AA:
(5150 - 5350 @ 160), (20)
(5250 - 5350 @ 80), (24), AUTO-BW
(57240 - 63720 @ 2160), (40)
country BB:
(2402 - 2422 @ 10), (20)
(2430 - 2440 @ 10), (20), AUTO-BW
(5170 - 5250 @ 80), (20), AUTO-BW
";

/// A note on a rule that governs its least channel.
fn governs(alpha2: Alpha2, rule: usize, khz: u32) -> RuleNote {
    RuleNote {
        alpha2,
        rule,
        least: Some(khz),
        held: Some(khz),
        by: None,
        narrow: false,
        idle_auto: false,
    }
}

/// A note on a rule that holds no channel.
fn empty(alpha2: Alpha2, rule: usize) -> RuleNote {
    RuleNote {
        alpha2,
        rule,
        least: None,
        held: None,
        by: None,
        narrow: false,
        idle_auto: false,
    }
}

#[test]
fn each_rule_has_its_note(rt: HostRuntime) -> Result<(), Fail> {
    let (a, b) = (Alpha2 { a: b'A', b: b'A' }, Alpha2 { a: b'B', b: b'B' });
    let db = parse(rt.alloc(), TEXT.as_bytes())?;
    let notes = lint(rt.alloc(), &db)?;
    let hidden = RuleNote {
        least: None,
        by: Some(0),
        ..governs(a, 1, 5_260_000)
    };
    let narrow = RuleNote {
        narrow: true,
        ..governs(b, 0, 2_412_000)
    };
    let idle = RuleNote {
        idle_auto: true,
        ..governs(b, 2, 5_180_000)
    };
    let both = RuleNote {
        narrow: true,
        idle_auto: true,
        ..empty(b, 1)
    };
    let wanted = [
        governs(a, 0, 5_180_000),
        hidden,
        empty(a, 2),
        narrow,
        both,
        idle,
    ];
    assert!(rt; notes.as_slice() == wanted.as_slice());
    Ok(())
}
