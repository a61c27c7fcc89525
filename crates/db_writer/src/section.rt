//! A section of a file: records in ascending order, each once, and the place of each.

ghost use Rattle.std.specs.Prelude.{◌≡◌, ◌↔◌, ℕ, ◌+◌, ◌*◌, ◌^◌, ◌≤◌, ◌++◌, List, length, All, AllPairs, Contains, IfOk, IsTrue, OnOk, flat_map, sum_by};
ghost use Rattle.std.specs.Cmp.Lexicographic.{slice_cmp};
ghost use Rattle.std.specs.Ordering.{nat_cmp};
ghost use Rattle.db_writer.specs.Order.{IsFileSection, place_in, precedes};
ghost use Rattle.db_writer.specs.inner.Places.{places_from, ArePlacedFrom};

use reg_base::Bytes;
use reg_lists::OutOfMemory;
use std::alloc::Global;

/// A record of a section.
pub trait Record: Ord {
    /// The list of numbers by which records are ordered.
    ghost key: { Self → List ℕ };

    /// How many words of 4 bytes it takes.
    ghost words: { Self → ℕ };

    /// Its bytes.
    ghost bytes: { Self → List ℕ };

    /// Its numbers fit the fields that the file has for them.
    ghost fits: { Self → Type 0 };

    /// How many words of 4 bytes the record takes.
    fn words(&self) -> u64
        ensures { result ≡ words self.now };

    /// Writes the bytes of the record.
    fn put(&self, out: &mut Bytes) -> Result<(), OutOfMemory>
        requires { fits self.now }
        ensures { OnOk result (out.new ≡ out.old ++ bytes self.now) };

    /// To compare records is to compare their keys.
    ghost by_key: { (x y : Self) → Self.cmp x y ≡ slice_cmp nat_cmp (key x) (key y) };

    /// Records of one key are the same.
    ghost told_by_key: { (x y : Self) → key x ≡ key y → x ≡ y };
}

/// How many words the records take.
pub fn words_of<T: Record>(records: &[T]) -> u64
    requires short { All (λ x. T.words x ≤ 65) records.now }
    requires few { length records.now ≤ 2 ^ 32 }
    ensures words { result ≡ sum_by T.words records.now }
    ensures small { result ≤ 65 * length records.now }
{
    let mut words = 0;
    for one in records {
        words += one.words();
    }
    words
}

/// Puts the records in ascending order, and drops repeats.
fn put_in_order<T: Record + Drop>(records: &mut Vec<T>)
    ensures section { IsFileSection T.key (Contains records.old.items) records.new.items }
    ensures few { length records.new.items ≤ length records.old.items }
{
    records.sort_unstable();
    records.dedup();
}

/// Records in ascending order, each once, and the place of each, in words of 4 bytes.
#[derive(Drop)]
pub struct Section<T: Record> {
    /// Where the section begins, in words of 4 bytes.
    pub first: u64,
    /// The records in ascending order, each once.
    pub records: Vec<T>,
    places: Vec<u64>,
    ghost placed: { ArePlacedFrom T.key T.words first records.items places.items },
}

/// The section of these records, of which the first one stands at `first`.
pub fn section_of<T: Record + Drop>(
    alloc: Global,
    records: Vec<T>,
    first: u64,
) -> Result<Section<T>, OutOfMemory>
    requires short { All (λ x. T.words x ≤ 65) records.items }
    requires few { length records.items ≤ 2 ^ 32 }
    requires low { first ≤ 2 ^ 40 }
    ensures first { IfOk result (λ s. s.first ≡ first) }
    ensures section { IfOk result (λ s. IsFileSection T.key (Contains records.items) s.records.items) }
    ensures few { IfOk result (λ s. length s.records.items ≤ length records.items) }
{
    let mut records = records;
    put_in_order(&mut records);
    let places = places_of(alloc, records.as_slice(), first)?;
    Ok(Section {
        first,
        records,
        places,
    })
}

/// The places of the records, of which the first stands at `first`.
fn places_of<T: Record>(alloc: Global, records: &[T], first: u64) -> Result<Vec<u64>, OutOfMemory>
    requires short { All (λ x. T.words x ≤ 65) records.now }
    requires few { length records.now ≤ 2 ^ 32 }
    requires low { first ≤ 2 ^ 40 }
    ensures { IfOk result (λ places. places.items ≡ places_from T.words first records.now) }
{
    let mut places = Vec::new(alloc);
    let mut place = first;
    for one in records {
        places.push(place)?;
        place += one.words();
    }
    Ok(places)
}

/// The place of one of the records, which stand in ascending order at these places.
fn place_among<T: Record>(records: &[T], places: &[u64], one: &T) -> u64
    requires ascending { AllPairs (λ x y. IsTrue (precedes (T.key x) (T.key y))) records.now }
    requires there { Contains records.now one.now }
    requires all { length places.now ≡ length records.now }
    ensures { (first : ℕ) → places.now ≡ places_from T.words first records.now → result ≡ place_in T.key T.words first records.now one.now }
{
    match records.binary_search(one) {
        Ok(k) => places[k],
        Err(_place) => unreachable!(),
    }
}

/// The place of a record of the section.
pub fn place_of<T: Record>(section: &Section<T>, one: &T) -> u64
    requires { Contains section.now.records.items one.now }
    ensures { result ≡ place_in T.key T.words section.now.first section.now.records.items one.now }
{
    place_among(section.records.as_slice(), section.places.as_slice(), one)
}

/// Writes the bytes of the records.
pub fn put_records<T: Record>(out: &mut Bytes, records: &[T]) -> Result<(), OutOfMemory>
    requires { All T.fits records.now }
    ensures { OnOk result (out.new ≡ out.old ++ flat_map T.bytes records.now) }
{
    for one in records {
        one.put(out)?;
    }
    Ok(())
}
