//! A rule of a domain.

ghost use Rattle.std.specs.Prelude.{◌≡◌, ◌<◌, Some, length, slice_get};

use freq_range::Rule;
use rule_tables::Domain;

/// Rule `k` of the domain, counted from 0.
pub fn rule_of(domain: &Domain, k: usize) -> Rule
    requires in_range { k < length domain.now.rules }
    ensures rule { slice_get domain.now.rules k ≡ Some result }
{
    domain.rules.as_slice()[k]
}
