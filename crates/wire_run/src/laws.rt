//! Laws over all scripts and streams.

ghost use Rattle.std.specs.Prelude.{◌≡◌, ℕ, List, []};
ghost use Rattle.rule_tables.specs.declared.domain.Domain.{Domain};
ghost use Rattle.nl_attrs.specs.declared.message.Msg.{Msg};
ghost use Rattle.reg_journal.specs.Facts.{Journal};
ghost use Rattle.core_runs.specs.Given.{EachGives};
ghost use Rattle.pack_command.specs.Packing.{Packs};
ghost use Rattle.script_run.specs.Output.{LineGives};
ghost use Rattle.wire_run.specs.Answering.{AreAnswers};
ghost use Rattle.wire_run.specs.Together.{IsOneCourse};

/// Messages have one list of answers where no driver fails.
pub fn one_list_of_answers()
    ensures { (db : List Domain) (messages : List Msg) (bytes others : List ℕ) → AreAnswers db messages bytes → AreAnswers db messages others → bytes ≡ others }
{}

/// The messages of a script's requests are answered by the messages of the replies that its lines are
/// answered with.
pub fn packed_lines_are_answered_alike()
    ensures { (db : List Domain) (lines : List (List ℕ)) (packed text failed : List ℕ) (requests : ℕ) (last : Journal)
        → Packs lines packed requests → EachGives (LineGives db) [] lines text failed last → IsOneCourse db [] 0 packed text failed last }
{}
