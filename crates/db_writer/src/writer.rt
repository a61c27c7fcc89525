//! The layout of a `regulatory.db` of version 20 (`docs/FORMATS.md`).

ghost use Rattle.std.specs.Prelude.{◌≡◌, ◌≤◌, ◌++◌, All, IfErr, IfOk, OnOk, flat_map};
ghost use Rattle.rule_tables.specs.Databases.{IsDb};
ghost use Rattle.rule_tables.specs.FileFormat.{ReadsAs};
ghost use Rattle.db_writer.specs.LaidOut.{domain_entry, file, LaidOut, IsWithinReach, IsWriteFault};
ghost use Rattle.db_writer.specs.inner.Planned.{IsPlanOf, IsSmall, IsDomainPlanned, CanBeWritten, planned_collection, planned_file};

use crate::fault::WriteFault;
use crate::gather::collection_record;
use crate::pieces::{put_pointer, put_u32};
use crate::plan::{Plan, last_collection, plan_of};
use crate::section::{place_of, put_records};
use reg_base::Bytes;
use reg_lists::OutOfMemory;
use rule_tables::{Db, Domain};
use std::alloc::Global;

/// What a database file begins with: `RGDB`.
const MAGIC: u32 = 0x5247_4442;

/// The version of the format, which stands behind it.
const VERSION: u32 = 20;

/// The greatest place that a pointer of 16 bits can name, in words of 4 bytes.
const REACH: u64 = 65535;

/// The bytes of the `regulatory.db` of version 20 that says this database. The sections in order:
/// the header, the entries, four zero bytes, the WMM rules, the rules, the collections. Each
/// section of records is in ascending order, and equal records are written once. `TooLarge` comes
/// where the last collection would stand above place 65,535, in words of 4 bytes.
pub fn layout(alloc: Global, db: &Db) -> Result<Bytes, WriteFault>
    ensures file { IfOk result (LaidOut db.now) }
    ensures reads { IfOk result (λ bytes. ReadsAs bytes db.now) }
    ensures fits { OnOk result (IsWithinReach db.now) }
    ensures cause { IfErr result (IsWriteFault db.now) }
{
    let bytes = file_of(alloc, db.as_slice())?;
    Ok(bytes)
}

/// The file of these domains.
fn file_of(alloc: Global, domains: &[Domain]) -> Result<Bytes, WriteFault>
    requires { IsDb domains.now }
    ensures file { IfOk result (LaidOut domains.now) }
    ensures fits { OnOk result (IsWithinReach domains.now) }
    ensures cause { IfErr result (IsWriteFault domains.now) }
{
    let plan = plan_of(alloc, domains)?;
    let words = last_collection(&plan);
    if words > REACH {
        return Err(WriteFault::TooLarge { words });
    }
    let mut bytes = Bytes::new(alloc);
    put_file(&mut bytes, alloc, domains, &plan)?;
    Ok(bytes)
}

/// Writes the whole file.
#[tactic(auto, unfolding(crate::specs::inner::Planned::planned_file))]
fn put_file(
    out: &mut Bytes,
    alloc: Global,
    domains: &[Domain],
    plan: &Plan,
) -> Result<(), OutOfMemory>
    requires { CanBeWritten domains.now plan.now }
    ensures { OnOk result (out.new ≡ out.old ++ planned_file domains.now plan.now) }
{
    put_u32(out, MAGIC)?;
    put_u32(out, VERSION)?;
    put_entries(out, alloc, domains, plan)?;
    put_u32(out, 0)?;
    put_records(out, plan.rules.wmm_rules.records.as_slice())?;
    put_records(out, plan.rules.rules.records.as_slice())?;
    put_records(out, plan.collections.records.as_slice())?;
    Ok(())
}

/// Writes the entries of the domains.
fn put_entries(
    out: &mut Bytes,
    alloc: Global,
    domains: &[Domain],
    plan: &Plan,
) -> Result<(), OutOfMemory>
    requires { All (IsDomainPlanned plan.now) domains.now }
    ensures { OnOk result (out.new ≡ out.old ++ flat_map (domain_entry (planned_collection plan.now)) domains.now) }
{
    for domain in domains {
        put_entry(out, alloc, domain, plan)?;
    }
    Ok(())
}

/// Writes the entry of a domain: its code, and a pointer to its collection.
#[tactic(auto, unfolding(crate::specs::LaidOut::domain_entry))]
fn put_entry(
    out: &mut Bytes,
    alloc: Global,
    domain: &Domain,
    plan: &Plan,
) -> Result<(), OutOfMemory>
    requires { IsDomainPlanned plan.now domain.now }
    ensures { OnOk result (out.new ≡ out.old ++ domain_entry (planned_collection plan.now) domain.now) }
{
    let place = place_of_collection(alloc, domain, plan)?;
    out.push(domain.alpha2.a)?;
    out.push(domain.alpha2.b)?;
    put_pointer(out, place)?;
    Ok(())
}

/// The place of the collection of a domain, in words.
#[tactic(auto, unfolding(crate::specs::LaidOut::collection_place))]
fn place_of_collection(alloc: Global, domain: &Domain, plan: &Plan) -> Result<u64, OutOfMemory>
    requires { IsDomainPlanned plan.now domain.now }
    ensures { IfOk result (λ place. place ≡ planned_collection plan.now domain.now) }
{
    let record = collection_record(alloc, domain, &plan.rules)?;
    Ok(place_of(&plan.collections, &record))
}
