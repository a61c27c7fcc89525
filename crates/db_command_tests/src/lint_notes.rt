//! Notes on rules, and what two countries allow together, as they are written. The lines are worked
//! out by hand from the channel table.

use crate::calls::{converted, give, refuse};
use crate::samples::{TWO_FILE, US_FILE};
use db_commands::{Conversion, InputFault, Status};
use rule_tables::{Alpha2, DbFault};
use std::alloc::Global;
use std::process::Abort;
use std::test::Fail;

/// A rule that governs channels, one that it hides, and one above all channels; and in the second
/// country a narrow rule, one that is narrow, has an AUTO-BW that allows no more and holds no channel,
/// and one with such an AUTO-BW alone.
const RULES: &[u8] = b"country AA:
(5150 - 5350 @ 160), (20)
(5250 - 5350 @ 80), (24), AUTO-BW
(57240 - 63720 @ 2160), (40)
country BB:
(2402 - 2422 @ 10), (20)
(2430 - 2440 @ 10), (20), AUTO-BW
(5170 - 5250 @ 80), (20), AUTO-BW
";

/// What is told of them.
const NOTES: &[u8] = b"AA rule 0: governs 5180 MHz
AA rule 1: hidden by 0 at 5260
AA rule 2: no channel
BB rule 0: governs 2412 MHz, narrow
BB rule 1: no channel, narrow, idle AUTO-BW
BB rule 2: governs 5180 MHz, idle AUTO-BW
2 countries, 6 rules, 3 without a channel
";

/// The world and two countries with the same bands, other powers and other flags.
const BANDS: &[u8] = b"country 00:
(2402 - 2472 @ 40), (20)
(5170 - 5250 @ 80), (20), NO-IR, AUTO-BW
(5250 - 5330 @ 80), (20), NO-IR, DFS, AUTO-BW
country US: DFS-FCC
(2400 - 2472 @ 40), (30)
(5150 - 5250 @ 80), (23), AUTO-BW
(5250 - 5350 @ 80), (24), DFS, AUTO-BW
country GB: DFS-ETSI
(2400 - 2483.5 @ 40), (100 mW)
(5150 - 5250 @ 80), (200 mW), NO-OUTDOOR, AUTO-BW
(5250 - 5350 @ 80), (100 mW), NO-OUTDOOR, DFS, AUTO-BW
";

/// What the two countries allow together.
const US_AND_GB: &[u8] = b"\t2412 40 MHz 2000 mBm
\t2417 40 MHz 2000 mBm
\t2422 40 MHz 2000 mBm
\t2427 40 MHz 2000 mBm
\t2432 40 MHz 2000 mBm
\t2437 40 MHz 2000 mBm
\t2442 40 MHz 2000 mBm
\t2447 40 MHz 2000 mBm
\t2452 40 MHz 2000 mBm
\t2457 40 MHz 2000 mBm
\t2462 40 MHz 2000 mBm
\t5180 200 MHz 2300 mBm, NO-OUTDOOR
\t5200 200 MHz 2300 mBm, NO-OUTDOOR
\t5220 200 MHz 2300 mBm, NO-OUTDOOR
\t5240 200 MHz 2300 mBm, NO-OUTDOOR
\t5260 200 MHz 2000 mBm, NO-OUTDOOR, DFS
\t5280 200 MHz 2000 mBm, NO-OUTDOOR, DFS
\t5300 200 MHz 2000 mBm, NO-OUTDOOR, DFS
\t5320 200 MHz 2000 mBm, NO-OUTDOOR, DFS
19 channels
";

/// The command about the countries of these two codes.
fn of_both(one: &[u8; 2], other: &[u8; 2]) -> Conversion {
    Conversion::Common {
        one: code(one),
        other: code(other),
    }
}

/// The code of these bytes.
fn code(bytes: &[u8; 2]) -> Alpha2 {
    let [a, b] = *bytes;
    Alpha2 { a, b }
}

/// The command writes the output for the database of the text.
fn tells(
    rt: &impl Abort,
    alloc: Global,
    command: Conversion,
    text: &[u8],
    output: &[u8],
) -> Result<(), Fail> {
    let (status, file) = converted(alloc, Conversion::Compile, text, 16)?;
    assert!(rt; status == Status::Done);
    give(rt, alloc, command, &[(file.written(), output)])
}

#[test]
fn each_rule_is_noted_on_a_line(rt: HostRuntime) -> Result<(), Fail> {
    tells(&rt, rt.alloc(), Conversion::Lint, RULES, NOTES)?;
    let nothing = b"0 countries, 0 rules, 0 without a channel\n";
    tells(&rt, rt.alloc(), Conversion::Lint, b"", nothing)
}

#[test]
fn what_two_countries_share_is_told(rt: HostRuntime) -> Result<(), Fail> {
    tells(&rt, rt.alloc(), of_both(b"US", b"GB"), BANDS, US_AND_GB)?;
    tells(&rt, rt.alloc(), of_both(b"GB", b"US"), BANDS, US_AND_GB)?;
    let apart = b"country AA:\n(2400 - 2483.5 @ 40), (20)\ncountry BB:\n(5170 - 5250 @ 80), (20)\n";
    tells(
        &rt,
        rt.alloc(),
        of_both(b"AA", b"BB"),
        apart,
        b"0 channels\n",
    )
}

#[test]
fn the_first_code_without_a_country_is_told(rt: HostRuntime) -> Result<(), Fail> {
    for (one, other, missing) in [
        (b"AA", b"FR", b"FR"),
        (b"FR", b"AA", b"FR"),
        (b"FR", b"DE", b"FR"),
        // no country has the code of the built-in world
        (b"00", b"BB", b"00"),
    ] {
        let fault = InputFault::NoCountry(code(missing));
        refuse(&rt, rt.alloc(), of_both(one, other), &[(&TWO_FILE, fault)])?;
    }
    Ok(())
}

#[test]
fn a_file_that_is_not_accepted_has_no_notes(rt: HostRuntime) -> Result<(), Fail> {
    let rows: [(&[u8], InputFault); 1] = [(&US_FILE[..7], InputFault::Database(DbFault::Short(7)))];
    refuse(&rt, rt.alloc(), Conversion::Lint, &rows)?;
    refuse(&rt, rt.alloc(), of_both(b"FR", b"US"), &rows)
}
