//! The records of a database file.

ghost use Rattle.std.specs.Prelude.{◌≡◌, [], ◌∷◌, ◌++◌, length, OnOk, OnErr, nat_eq};
ghost use Rattle.std.proofs.Common.{refl};
ghost use Rattle.std.specs.Cmp.{unsigned_ties, partial_equiv_from_equiv, partial_order_from_agreeing_total};
ghost use Rattle.std.specs.Cmp.Lexicographic.{pointwise, slice_cmp, nat_list_cmp_total, nat_list_eq_equiv, lists_ties};
ghost use Rattle.std.specs.Ordering.{nat_cmp, as_partial_cmp};

use reg_base::Bytes;
use reg_lists::OutOfMemory;
use std::alloc::Global;
use std::cmp::Ordering;
use std::marker::Model;

/// The places of records in a file, in words of 4 bytes.
#[derive(Debug, Drop)]
pub struct Places {
    items: Vec<u64>,
}

impl Model for Places {
    ghost use Rattle.std.specs.Prelude.{List, ℕ};

    ghost Value = { List ℕ };

    ghost view = { λ p. p.items.items };
}

impl Places {
    /// No places. It takes no memory until the first one comes.
    pub fn new(alloc: Global) -> Self
        ensures { result ≡ [] }
    {
        Places {
            items: Vec::new(alloc),
        }
    }

    /// Appends a place. `OutOfMemory` changes nothing.
    pub fn push(&mut self, item: u64) -> Result<(), OutOfMemory>
        ensures ok { OnOk result (self.new ≡ self.old ++ item ∷ []) }
        ensures err { OnErr result (self.new ≡ self.old) }
    {
        self.items.push(item)?;
        Ok(())
    }

    /// All the places.
    pub fn as_slice(&self) -> &[u64]
        ensures { result.now ≡ self.now }
    {
        self.items.as_slice()
    }
}

// Lists of places are compared as the lists that they are. A derive isn't there for a struct that is
// seen as a list.
impl PartialEq for Places {
    ghost eq = { pointwise nat_eq };

    ghost laws = { partial_equiv_from_equiv nat_list_eq_equiv };

    fn eq(&self, other: &Places) -> bool {
        self.items == other.items
    }
}

impl Eq for Places {
    ghost laws = { nat_list_eq_equiv };
}

impl PartialOrd for Places {
    ghost partial_cmp = { as_partial_cmp (slice_cmp nat_cmp) };

    ghost laws = { partial_order_from_agreeing_total (slice_cmp nat_cmp) nat_list_cmp_total (λ _ _. refl) (lists_ties nat_cmp unsigned_ties) };

    fn partial_cmp(&self, other: &Places) -> Option<Ordering> {
        Some(self.cmp(other))
    }
}

impl Ord for Places {
    ghost cmp = { slice_cmp nat_cmp };

    ghost total = { nat_list_cmp_total };

    ghost matches_partial_cmp = { λ _ _. refl };

    ghost matches_eq = { lists_ties nat_cmp unsigned_ties };

    fn cmp(&self, other: &Places) -> Ordering {
        self.items.cmp(&other.items)
    }
}

/// The record of a WMM rule: its bytes.
pub type WmmRecord = [u8; 32];

/// What the record of a rule says.
#[derive(Clone, Copy, Debug, PartialEq, Eq, PartialOrd, Ord)]
pub struct RuleRecord {
    /// Where the range begins, in kHz.
    pub start_khz: u32,
    /// Where the range ends, in kHz.
    pub end_khz: u32,
    /// The greatest width of a channel, in kHz.
    pub max_bw_khz: u32,
    /// All flags in one byte.
    pub flags: u8,
    /// The greatest power, in mBm (EIRP).
    pub eirp_mbm: u16,
    /// How long a channel is checked for radar, in seconds.
    pub cac_s: u16,
    /// The place of the WMM rule, in words of 4 bytes.
    pub wmm: Option<u64>,
}

/// What the record of a collection says.
#[derive(Debug, Drop, PartialEq, Eq, PartialOrd, Ord)]
pub struct CollectionRecord {
    /// The number of the region.
    pub region: u8,
    /// The places of the rules, in words of 4 bytes.
    pub rules: Places,
}
