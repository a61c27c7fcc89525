//! The regions of the lists that apply.

ghost use Rattle.std.specs.Prelude.{◌≡◌, ◌++◌, List, not};
ghost use Rattle.std.specs.Option.{option_copied, option_to_list};
ghost use Rattle.rule_tables.specs.declared.domain.Domain.{Domain};
ghost use Rattle.rule_tables.specs.Regions.{is_same_region};
ghost use Rattle.rule_tables.specs.declared.code.Region.TheVariants.{Etsi};
ghost use Rattle.reg_books.specs.Lists.{region_by, shared_by};
ghost use Rattle.core_parts.specs.RegionSoFar.{IsRegionSoFar};

use crate::domains::Domains;
use crate::tables::driver_of;
use reg_hints::Hints;
use rule_tables::{Alpha2, Domain, Region};

/// Whether both are the same region.
fn is_same_region(one: Region, other: Region) -> bool
    ensures { result ≡ is_same_region one other }
{
    one.is_same(other)
}

/// The region of the domains so far, and of one more where there is one.
fn also(so_far: Option<Region>, domain: Option<&Domain>) -> Option<Region>
    ensures { (ds : List Domain) → IsRegionSoFar ds so_far → IsRegionSoFar (ds ++ option_to_list (option_copied domain.entry)) result }
{
    let Some(domain) = domain else {
        return so_far;
    };
    match so_far {
        None => Some(domain.region),
        Some(region) if is_same_region(region, domain.region) => Some(region),
        Some(_) => Some(Region::Unset),
    }
}

/// The region of the global list, or none for a radio that manages itself.
fn shared_region(domains: &Domains, hints: &Hints, self_managed: bool) -> Option<Region>
    ensures { IsRegionSoFar (shared_by domains.now hints.now self_managed) result }
{
    let mut so_far = None;
    if self_managed {
        return so_far;
    }
    let mut k = 0;
    'codes: while let Some(alpha2) = hints.global(k) {
        so_far = also(so_far, domains.find(alpha2));
        k += 1;
    }
    so_far
}

/// The region of a radio, which may manage itself, with the code of its driver's last hint
/// (`reg_get_dfs_region`). Custom rules have none.
pub fn region_of(
    domains: &Domains,
    hints: &Hints,
    self_managed: bool,
    driver: Option<Alpha2>,
) -> Region
    ensures { result ≡ region_by domains.now hints.now self_managed driver }
{
    let shared = shared_region(domains, hints, self_managed);
    match also(shared, driver_of(domains, driver)) {
        Some(region) => region,
        None => Region::Unset,
    }
}

/// Whether checks last in the region: it is that of ETSI.
pub fn checks_last(region: Region) -> bool
    ensures { result ≡ is_same_region region Etsi }
{
    is_same_region(region, Region::Etsi)
}

/// Whether a radio's region differs after hints from what it was before them.
pub fn is_moved(before: Region, after: Region) -> bool
    ensures { result ≡ not (is_same_region after before) }
{
    !is_same_region(after, before)
}
