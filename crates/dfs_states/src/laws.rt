//! Laws over all lists of calls.

ghost use Rattle.std.specs.Prelude.{◌≡◌, ℕ, List, Bool, Option};
ghost use Rattle.chan_def.specs.declared.definition.ChanDef.{ChanDef};
ghost use Rattle.dfs_states.specs.Book.{Book};
ghost use Rattle.dfs_states.specs.Calls.{Call, moment_of, lasts_of};
ghost use Rattle.dfs_states.specs.Meaning.{EachMayBeCalled, AreBlank, IsBookAnswer, IsRunning};
ghost use Rattle.dfs_states.specs.StandsFor.{BookStandsFor};
ghost use Rattle.dfs_states.specs.declared.dfs.Dfs.{Dfs};

/// A list of calls leaves one answer for each centre, and one for each slot.
pub fn answers_are_determined()
    ensures state { (channels : List ℕ) (opening : Bool) (calls : List Call) (khz : ℕ) (one other : Dfs)
        → IsBookAnswer channels opening calls khz one → IsBookAnswer channels opening calls khz other → one ≡ other }
    ensures running { (calls : List Call) (slot : ℕ) (one other : Option (ChanDef × ℕ))
        → IsRunning calls slot one → IsRunning calls slot other → one ≡ other }
{}

/// A book that stands for moments and changes of the region alone stands for any such list, over any
/// opening, that leads to the same moment and to a region where checks last as well, or lapse as well.
pub fn blank_calls_are_alike()
    ensures alike { (book : Book) (channels : List ℕ) (opening other : Bool) (calls others : List Call)
        → AreBlank calls → AreBlank others → EachMayBeCalled others → moment_of calls ≡ moment_of others
        → lasts_of opening calls ≡ lasts_of other others
        → BookStandsFor book channels opening calls → BookStandsFor book channels other others }
{}
