//! The values of a map, in the order of its keys.

ghost use Rattle.std.specs.Prelude.{◌≡◌, IfOk};
ghost use Rattle.std.specs.BTreeMap.{IsOrdered, values};

use reg_lists::OutOfMemory;
use std::alloc::Global;
use std::collections::BTreeMap;

/// Takes all values out of a map.
pub fn values_of<K: Ord + Drop, V: Drop>(
    alloc: Global,
    map: BTreeMap<K, V>,
) -> Result<Vec<V>, OutOfMemory>
    ensures all { IfOk result (λ list. list.items ≡ values map) }
    ensures ordered { IsOrdered K.cmp map }
{
    let mut left = map;
    let mut list = Vec::new(alloc);
    'taking: while let Some((_, value)) = left.pop_first() {
        list.push(value)?;
    }
    Ok(list)
}
