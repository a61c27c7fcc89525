//! Laws over all scripts.

ghost use Rattle.std.specs.Prelude.{◌≡◌, ℕ, List};
ghost use Rattle.pack_command.specs.Packing.{Packs};

/// Lines are packed into one list of bytes, with one number of requests.
pub fn one_packing()
    ensures { (lines : List (List ℕ)) (bytes others : List ℕ) (n m : ℕ) → Packs lines bytes n → Packs lines others m → (bytes ≡ others) × (n ≡ m) }
{}
