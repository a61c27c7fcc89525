//! Laws over all journals.

ghost use Rattle.std.specs.Prelude.{◌≡◌, ◌==◌, ◌↔◌, ℕ, ◌+◌, ◌<◌, List, ◌∷◌, ◌++◌, Contains, Option, Some, None, find};
ghost use Rattle.rule_tables.specs.declared.domain.Domain.{Domain};
ghost use Rattle.chan_flags.specs.Profiles.{Abilities};
ghost use Rattle.dfs_states.specs.Calls.{lasts_of, moment_of as now_in_book};
ghost use Rattle.dfs_states.specs.Meaning.{AreBlank, EachMayBeCalled as AreDueCalls, CheckCounts as CountsInBook};
ghost use Rattle.dfs_states.specs.Meaning.{HasNonoccupancy as IsBarredInBook, IsFreeSlot, IsPastNonoccupancy as IsQuietInBook};
ghost use Rattle.dfs_states.specs.Meaning.{CheckLapsed, HasOperation, IsBookState as IsStateInBook, Runs, CheckStands as StandsInBook};
ghost use Rattle.dfs_states.specs.declared.dfs.Dfs.{Dfs};
ghost use Rattle.radio_drv.specs.Air.{IsAir};
ghost use Rattle.radio_drv.specs.Seen.{Seen};
ghost use Rattle.reg_journal.specs.Due.{EachMayFollow};
ghost use Rattle.reg_journal.specs.Facts.{Journal, radio_added};
ghost use Rattle.reg_journal.specs.OnAir.{on_air_of};
ghost use Rattle.reg_journal.specs.Present.{Check, Iface, check_of, ifaces_of, indexed, now_of, radio_of};
ghost use Rattle.reg_journal.specs.Radar.{Counts, HasLapsed, IsBarred, IsQuiet, IsState, IsUsed, Stands};
ghost use Rattle.reg_books.specs.Calls.{calls_of, checks_last_on, opening_of};
ghost use Rattle.reg_books.specs.Entries.{entry_on};
ghost use Rattle.reg_books.specs.DriverRows.{AreDriven, Follows};
ghost use Rattle.reg_books.specs.Slots.{slot_of};

/// What a radio's book is told may be told, and says of moments, radar, checks, operations and the
/// region what the journal says of the radio.
pub fn books_are_told_what_journals_say()
    ensures moment { (db : List Domain) (journal : Journal) (radio : ℕ)
        → now_in_book (calls_of db journal radio) ≡ now_of journal }
    ensures due { (db : List Domain) (journal : Journal) (radio : ℕ)
        → EachMayFollow db journal → AreDueCalls (calls_of db journal radio) }
    ensures barred { (db : List Domain) (journal : Journal) (radio khz until : ℕ)
        → IsBarred journal radio khz until ↔ IsBarredInBook (calls_of db journal radio) khz until }
    ensures quiet { (db : List Domain) (journal : Journal) (radio khz : ℕ)
        → IsQuiet journal radio khz ↔ IsQuietInBook (calls_of db journal radio) khz }
    ensures counts { (db : List Domain) (journal : Journal) (radio khz end : ℕ) → EachMayFollow db journal
        → Counts db journal radio khz end ↔ ((slot : ℕ) × CountsInBook (calls_of db journal radio) khz slot end) }
    ensures stands { (db : List Domain) (journal : Journal) (radio khz end : ℕ) → EachMayFollow db journal
        → Stands db journal radio khz end ↔ StandsInBook (opening_of db radio) (calls_of db journal radio) khz end }
    ensures used { (db : List Domain) (journal : Journal) (radio khz : ℕ) → EachMayFollow db journal
        → IsUsed journal radio khz ↔ HasOperation (calls_of db journal radio) khz }
    ensures lapsed { (db : List Domain) (journal : Journal) (radio khz end : ℕ) → EachMayFollow db journal
        → HasLapsed journal radio khz end ↔ CheckLapsed (calls_of db journal radio) khz end }
    ensures lasts { (db : List Domain) (journal : Journal) (radio : ℕ)
        → lasts_of (opening_of db radio) (calls_of db journal radio) ≡ checks_last_on db journal radio }
    ensures state { (db : List Domain) (journal : Journal) (radio khz : ℕ) (dfs : Dfs) → EachMayFollow db journal
        → IsState db journal radio khz dfs ↔ IsStateInBook (opening_of db radio) (calls_of db journal radio) khz dfs }
{}

/// An interface has one of eight slots as long as it is there, another one than the others of its
/// radio, and its check runs in that slot of the radio's book.
pub fn interfaces_have_their_slots()
    ensures small { (journal : Journal) (index : ℕ) → slot_of journal index < 8 }
    ensures stays { (db : List Domain) (newer journal : Journal) (index radio : ℕ) → EachMayFollow db (newer ++ journal)
        → radio_of journal index ≡ Some radio
        → (radio_of (newer ++ journal) index ≡ Some radio) × (slot_of (newer ++ journal) index ≡ slot_of journal index) }
    ensures apart { (db : List Domain) (journal : Journal) (x y : Iface) → EachMayFollow db journal
        → Contains (ifaces_of journal) x → Contains (ifaces_of journal) y → x.radio ≡ y.radio
        → slot_of journal x.index ≡ slot_of journal y.index → x ≡ y }
    ensures runs { (db : List Domain) (journal : Journal) (x : Iface) (check : Check) → EachMayFollow db journal
        → Contains (ifaces_of journal) x → check_of journal x.index ≡ Some check
        → Runs (calls_of db journal x.radio) (slot_of journal x.index) check.chan check.begin (check.begin + check.length) }
    ensures idle { (db : List Domain) (journal : Journal) (x : Iface) → EachMayFollow db journal
        → Contains (ifaces_of journal) x → check_of journal x.index ≡ None
        → IsFreeSlot (calls_of db journal x.radio) (slot_of journal x.index) }
{}

/// An interface that is there is the one that its index names, and is on the radio on which it was
/// made. One with a running check is there.
pub fn indexes_name_interfaces()
    ensures listed { (db : List Domain) (journal : Journal) (x : Iface) → EachMayFollow db journal
        → Contains (ifaces_of journal) x ↔ (indexed journal x.index ≡ Some x) }
    ensures radio { (db : List Domain) (journal : Journal) (x : Iface) → EachMayFollow db journal
        → Contains (ifaces_of journal) x → radio_of journal x.index ≡ Some x.radio }
    ensures checked { (db : List Domain) (journal : Journal) (index : ℕ) (check : Check) → EachMayFollow db journal
        → check_of journal index ≡ Some check → (x : Iface) × (indexed journal index ≡ Some x) }
{}

/// What comes before a radio is added is for its book moments and changes of the region alone.
pub fn books_of_added_radios_are_blank()
    ensures { (db : List Domain) (journal : Journal) (radio : ℕ) (profile : Abilities)
        → EachMayFollow db (radio_added radio profile ∷ journal) → AreBlank (calls_of db (radio_added radio profile ∷ journal) radio) }
{}

/// What is on air is what operates: a radio's list has an interface exactly where the interface was made
/// on the radio and has an operation, with its channel and power, and has it once. So drivers that follow
/// the journal have on air what operates.
pub fn what_operates_is_on_air()
    ensures entries { (db : List Domain) (journal : Journal) (radio index : ℕ) → EachMayFollow db journal
        → find (λ e. e.iface == index) (on_air_of journal radio) ≡ entry_on journal radio index }
    ensures once { (db : List Domain) (journal : Journal) (radio : ℕ) → EachMayFollow db journal → IsAir (on_air_of journal radio) }
    ensures driven { (db : List Domain) (journal : Journal) (row : List (Option Seen)) → EachMayFollow db journal
        → Follows journal row → AreDriven journal row }
{}
