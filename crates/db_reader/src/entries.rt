//! Entries of a file.

ghost use Rattle.std.specs.Prelude.{◌≡◌, ◌+◌, ◌↔◌, IsTrue, ◌≤◌, MatchResult, length};
ghost use Rattle.rule_tables.specs.Databases.{HasCode};
ghost use Rattle.rule_tables.specs.FileFormat.{AreEntries, EndsAt, ReadsAs, entry_place};
ghost use Rattle.rule_tables.specs.FileFaults.{HasHeader, IsCodeFault, entry_code};
ghost use Rattle.rule_tables.specs.Code.{IsCode};
ghost use Rattle.db_reader.specs.inner.Parts.{IsEntriesStop, IsEntryStop, IsNewEntry};

use crate::collection::read_collection;
use crate::fault::ReadFault;
use crate::numbers::{target_at, u8_at, u16_at};
use rule_tables::{Alpha2, Db, DbFault, Domain};
use std::alloc::Global;

/// The code in the two bytes at that place.
fn code_at(bytes: &[u8], place: usize) -> Alpha2
    requires { place + 2 ≤ length bytes.now }
    ensures { result ≡ entry_code bytes.now place }
{
    Alpha2 {
        a: u8_at(bytes, place),
        b: u8_at(bytes, place + 1),
    }
}

/// The code of the entry number `k`, which none of the entries before it has: the database holds
/// their domains.
fn read_code(bytes: &[u8], k: usize, db: &Db) -> Result<Alpha2, DbFault>
    requires in_file { entry_place k + 4 ≤ length bytes.now }
    requires so_far { AreEntries bytes.now k db.now }
    ensures { MatchResult result
        (λ code. (code ≡ entry_code bytes.now (entry_place k)) × IsCode code × (HasCode db.now code → ⊥))
        (IsCodeFault bytes.now k) }
{
    let alpha2 = code_at(bytes, 8 + 4 * k);
    if !alpha2.is_code() {
        return Err(DbFault::BadAlpha2(alpha2.a, alpha2.b));
    }
    match db.find(alpha2) {
        Some(_domain) => Err(DbFault::CountryTwice(alpha2)),
        None => Ok(alpha2),
    }
}

/// The domain of the entry number `k`, where the database holds those of the entries before it.
fn read_entry(alloc: Global, bytes: &[u8], k: usize, db: &Db) -> Result<Domain, ReadFault>
    requires in_file { entry_place k + 4 ≤ length bytes.now }
    requires so_far { AreEntries bytes.now k db.now }
    ensures { MatchResult result (IsNewEntry bytes.now k db.now) (IsEntryStop bytes.now k) }
{
    let alpha2 = read_code(bytes, k, db)?;
    let place = target_at(bytes, 8 + 4 * k + 2);
    let domain = read_collection(alloc, bytes, place, alpha2)?;
    Ok(domain)
}

/// Whether the list of entries ends at number `k`, which is all in the file: its pointer is 0.
fn ends_at(bytes: &[u8], k: usize) -> bool
    requires { entry_place k + 4 ≤ length bytes.now }
    ensures { IsTrue result ↔ EndsAt bytes.now k }
{
    u16_at(bytes, 8 + 4 * k + 2) == 0
}

/// The domains of all entries. The list of entries ends where fewer than four bytes are left, or at
/// an entry whose pointer is 0.
pub fn read_entries(alloc: Global, bytes: &[u8]) -> Result<Db, ReadFault>
    requires { HasHeader bytes.now }
    ensures { MatchResult result (ReadsAs bytes.now) (IsEntriesStop bytes.now) }
{
    let mut db = Db::new(alloc);
    for k in 0..(bytes.len() - 8) / 4 {
        if ends_at(bytes, k) {
            return Ok(db);
        }
        let domain = read_entry(alloc, bytes, k, &db)?;
        db.insert_new(domain)?;
    }
    Ok(db)
}
