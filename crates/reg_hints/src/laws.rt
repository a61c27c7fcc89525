//! Laws over all hints.

ghost use Rattle.std.specs.Prelude.{◌<◌, List, length};
ghost use Rattle.reg_hints.specs.Table.{Hinted, after_all};

/// Whatever hints came, the global list names some domain.
pub fn global_list_is_never_empty()
    ensures { (hinted : List Hinted) → 0 < length (after_all hinted).global }
{}
