//! The header of a file.

ghost use Rattle.std.specs.Prelude.{MatchResult};
ghost use Rattle.rule_tables.specs.FileFaults.{HasHeader, IsHeaderFault};

use crate::numbers::u32_at;
use rule_tables::DbFault;

/// What a database file begins with: `RGDB`.
const MAGIC: u32 = 0x5247_4442;

/// The version of the format, which stands behind it.
const VERSION: u32 = 20;

/// Whether the file begins with a header, or the first of `Short`, `BadMagic`, `BadVersion` that
/// applies.
pub fn check_header(bytes: &[u8]) -> Result<(), DbFault>
    ensures { MatchResult result (λ _. HasHeader bytes.now) (IsHeaderFault bytes.now) }
{
    if bytes.len() < 8 {
        return Err(DbFault::Short(bytes.len()));
    }
    let magic = u32_at(bytes, 0);
    if magic != MAGIC {
        return Err(DbFault::BadMagic(magic));
    }
    let version = u32_at(bytes, 4);
    if version != VERSION {
        return Err(DbFault::BadVersion(version));
    }
    Ok(())
}
