//! Reads the bytes of a `regulatory.db` of version 20 (`docs/FORMATS.md`).

ghost use Rattle.std.specs.Prelude.{MatchResult};
ghost use Rattle.rule_tables.specs.FileFormat.{ReadsAs};
ghost use Rattle.db_reader.specs.Faults.{IsReadFault};

use crate::entries::read_entries;
use crate::fault::ReadFault;
use crate::header::check_header;
use rule_tables::Db;
use std::alloc::Global;

/// The database that the bytes say, or their first fault in the order of the file. `OutOfMemory`
/// comes where no memory was found for the database, and only behind a good header.
pub fn read_db(alloc: Global, bytes: &[u8]) -> Result<Db, ReadFault>
    ensures reads { MatchResult result (λ db. ReadsAs bytes.now db) (IsReadFault bytes.now) }
{
    check_header(bytes)?;
    let db = read_entries(alloc, bytes)?;
    Ok(db)
}
