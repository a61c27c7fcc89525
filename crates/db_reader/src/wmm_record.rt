//! WMM rules in a file.

ghost use Rattle.std.specs.Prelude.{◌+◌, ◌≤◌, MatchOption, length};
ghost use Rattle.freq_range.specs.Valid.{IsValidWmm};
ghost use Rattle.freq_range.specs.declared.wmm.Wmm.{Wmm};
ghost use Rattle.rule_tables.specs.FileFormat.{WmmAt, WmmEntryAt};

use crate::numbers::{is_within, u8_at, u16_at};
use freq_range::{Wmm, WmmEntry};

/// The entry of a WMM rule in the four bytes at that place.
fn entry_at(bytes: &[u8], place: usize) -> WmmEntry
    requires { place + 4 ≤ length bytes.now }
    ensures { WmmEntryAt bytes.now place result }
{
    let exponents = u8_at(bytes, place);
    WmmEntry {
        min_exp: exponents / 16,
        max_exp: exponents % 16,
        aifsn: u8_at(bytes, place + 1),
        cot_ms: u16_at(bytes, place + 2),
    }
}

/// The WMM rule in the 32 bytes at that place.
fn wmm_at(bytes: &[u8], place: usize) -> Wmm
    requires { place + 32 ≤ length bytes.now }
    ensures { WmmAt bytes.now place result }
{
    Wmm {
        vo_c: entry_at(bytes, place),
        vi_c: entry_at(bytes, place + 4),
        be_c: entry_at(bytes, place + 8),
        bk_c: entry_at(bytes, place + 12),
        vo_ap: entry_at(bytes, place + 16),
        vi_ap: entry_at(bytes, place + 20),
        be_ap: entry_at(bytes, place + 24),
        bk_ap: entry_at(bytes, place + 28),
    }
}

/// The valid WMM rule at that place, or `None` where there is none.
pub fn read_wmm(bytes: &[u8], place: usize) -> Option<Wmm>
    ensures { MatchOption result
        ((w : Wmm) → WmmAt bytes.now place w → IsValidWmm w → ⊥)
        (λ w. WmmAt bytes.now place w × IsValidWmm w) }
{
    if !is_within(bytes, place, 32) {
        return None;
    }
    let wmm = wmm_at(bytes, place);
    if !wmm.is_valid() {
        return None;
    }
    Some(wmm)
}
