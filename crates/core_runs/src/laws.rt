//! Laws over all requests.

ghost use Rattle.std.specs.Prelude.{◌≡◌, [], List};
ghost use Rattle.rule_tables.specs.declared.domain.Domain.{Domain};
ghost use Rattle.reg_journal.specs.Facts.{Journal};
ghost use Rattle.reg_journal.specs.declared.reply.Reply.{Reply};
ghost use Rattle.reg_journal.specs.declared.request.Request.{Request};
ghost use Rattle.core_runs.specs.Given.{EachGives, RequestGives};

/// Requests give one list of replies where no driver fails, and lead to one journal.
pub fn one_course()
    ensures { (db : List Domain) (journal : Journal) (requests : List Request) (replies others : List Reply) (last other : Journal)
        → EachGives (RequestGives db) journal requests replies [] last → EachGives (RequestGives db) journal requests others [] other
        → (replies ≡ others) × (last ≡ other) }
{}
