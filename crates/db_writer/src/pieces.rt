//! The pieces of a database file.

ghost use Rattle.std.specs.Prelude.{◌≡◌, ℕ, ◌+◌, ◌*◌, ◌≤◌, ◌++◌, ◌∷◌, [], All, IfSome, List, OnOk, flat_map, length, refl};
ghost use Rattle.db_writer.specs.Records.{be16, be32, rule_key, rule_length, rule_end, rule_words, rule_bytes, collection_padding, collection_key, collection_words, collection_bytes};
ghost use Rattle.db_writer.specs.inner.Fits.{RuleFits, CollectionFits};
ghost use Rattle.db_writer.specs.inner.Keys.{rule_by_key, rule_told_by_key, collection_by_key, collection_told_by_key};

use crate::records::{CollectionRecord, RuleRecord, WmmRecord};
use crate::section::Record;
use byteorder::{BigEndian, ByteOrder};
use reg_base::Bytes;
use reg_lists::OutOfMemory;

/// Writes a number in two bytes, the higher first.
#[tactic(auto, unfolding(crate::specs::Records::be16))]
fn put_u16(out: &mut Bytes, number: u16) -> Result<(), OutOfMemory>
    ensures { OnOk result (out.new ≡ out.old ++ be16 number) }
{
    let mut piece = [0u8; 2];
    BigEndian::write_u16(&mut piece, number);
    out.append(&piece)?;
    Ok(())
}

/// Writes a number in four bytes, the highest first.
#[tactic(auto, unfolding(crate::specs::Records::be32))]
pub fn put_u32(out: &mut Bytes, number: u32) -> Result<(), OutOfMemory>
    ensures { OnOk result (out.new ≡ out.old ++ be32 number) }
{
    let mut piece = [0u8; 4];
    BigEndian::write_u32(&mut piece, number);
    out.append(&piece)?;
    Ok(())
}

/// Writes a pointer to this place, in words.
pub fn put_pointer(out: &mut Bytes, place: u64) -> Result<(), OutOfMemory>
    requires { place ≤ 65535 }
    ensures { OnOk result (out.new ≡ out.old ++ be16 place) }
{
    put_u16(out, place as u16)?;
    Ok(())
}

/// The length that a rule's record states, in bytes. Zero bytes that fill the record up to a whole
/// word don't count.
fn rule_length(rule: &RuleRecord) -> u8
    ensures length { result ≡ rule_length rule.now.cac_s rule.now.wmm }
    ensures small { result ≤ 20 }
{
    match rule.wmm {
        Some(_place) => 20,
        None if rule.cac_s == 0 => 16,
        None => 18,
    }
}

/// Writes what stands behind the first 16 bytes of a rule: a check time and a pointer to a WMM rule,
/// or a check time filled up to a whole word, or nothing.
fn put_rule_end(out: &mut Bytes, seconds: u16, wmm: Option<u64>) -> Result<(), OutOfMemory>
    requires { IfSome wmm (λ place. place ≤ 65535) }
    ensures { OnOk result (out.new ≡ out.old ++ rule_end seconds wmm) }
{
    if let Some(place) = wmm {
        put_u16(out, seconds)?;
        put_pointer(out, place)?;
    } else if seconds != 0 {
        put_u16(out, seconds)?;
        put_u16(out, 0)?;
    }
    Ok(())
}

/// Writes pointers to these places, in words.
fn put_pointers(out: &mut Bytes, places: &[u64]) -> Result<(), OutOfMemory>
    requires { All (λ place. place ≤ 65535) places.now }
    ensures { OnOk result (out.new ≡ out.old ++ flat_map be16 places.now) }
{
    for place in places {
        put_pointer(out, *place)?;
    }
    Ok(())
}

/// Fills so many pointers up to a whole word.
#[tactic(auto, unfolding(crate::specs::Records::collection_padding, crate::specs::Records::be16))]
fn put_padding(out: &mut Bytes, count: usize) -> Result<(), OutOfMemory>
    ensures { OnOk result (out.new ≡ out.old ++ collection_padding count) }
{
    if count % 2 == 0 {
        return Ok(());
    }
    out.append(&[0, 0])?;
    Ok(())
}

impl Record for WmmRecord {
    ghost key = { λ bytes. bytes };

    ghost words = { λ bytes. 8 };

    ghost bytes = { λ bytes. bytes };

    ghost fits = { λ bytes. Unit {0} };

    ghost by_key = { λ _ _. refl };

    ghost told_by_key = { λ _ _ e. e };

    fn words(&self) -> u64 {
        8
    }

    fn put(&self, out: &mut Bytes) -> Result<(), OutOfMemory> {
        out.append(self)?;
        Ok(())
    }
}

impl Record for RuleRecord {
    ghost key = { rule_key };

    ghost words = { rule_words };

    ghost bytes = { rule_bytes };

    ghost fits = { RuleFits };

    ghost by_key = { rule_by_key };

    ghost told_by_key = { rule_told_by_key };

    #[tactic(auto, unfolding(crate::specs::Records::rule_words))]
    fn words(&self) -> u64 {
        (u64::from(rule_length(self)) + 3) / 4
    }

    #[tactic(auto, unfolding(crate::specs::Records::rule_bytes))]
    fn put(&self, out: &mut Bytes) -> Result<(), OutOfMemory> {
        out.push(rule_length(self))?;
        out.push(self.flags)?;
        put_u16(out, self.eirp_mbm)?;
        put_u32(out, self.start_khz)?;
        put_u32(out, self.end_khz)?;
        put_u32(out, self.max_bw_khz)?;
        put_rule_end(out, self.cac_s, self.wmm)?;
        Ok(())
    }
}

impl Record for CollectionRecord {
    ghost key = { collection_key };

    ghost words = { collection_words };

    ghost bytes = { collection_bytes };

    ghost fits = { CollectionFits };

    ghost by_key = { collection_by_key };

    ghost told_by_key = { collection_told_by_key };

    #[tactic(auto, unfolding(crate::specs::Records::collection_words))]
    fn words(&self) -> u64 {
        1 + (self.rules.as_slice().len() as u64).div_ceil(2)
    }

    #[tactic(auto, unfolding(crate::specs::Records::collection_bytes))]
    fn put(&self, out: &mut Bytes) -> Result<(), OutOfMemory> {
        let places = self.rules.as_slice();
        out.push(3)?;
        out.push(places.len() as u8)?;
        out.push(self.region)?;
        out.push(0)?;
        put_pointers(out, places)?;
        put_padding(out, places.len())?;
        Ok(())
    }
}
