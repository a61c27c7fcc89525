//! Counts of replies.

ghost use Rattle.std.specs.Prelude.{◌≡◌, ◌+◌, ◌≤◌, ◌<◌, ◌^◌, [], ◌∷◌, ◌++◌, List, IfOk, string_bytes};
ghost use Rattle.reg_journal.specs.Codes.{code_of_answer};
ghost use Rattle.reg_journal.specs.Effects.{HasFewEffects};
ghost use Rattle.reg_journal.specs.declared.reply.Reply.{Reply};
ghost use Rattle.make_command.specs.Counts.{counts_line, effect_count, is_check, is_hint, is_refused, is_start};
ghost use Rattle.make_command.specs.inner.Making.{AreCounts, AreFew};

use reg_journal::{Answer, Reply};
use reg_lists::OutOfMemory;
use std::alloc::Global;

/// How many replies there were of each kind.
#[derive(Clone, Copy, Debug)]
pub(crate) struct Counts {
    /// All of them, one for each request.
    pub(crate) requests: u64,
    pub(crate) started: u64,
    pub(crate) refused: u64,
    pub(crate) checks: u64,
    pub(crate) hints: u64,
    /// How many effects they had in all.
    pub(crate) effects: u64,
}

/// Whether the reply starts an operation.
fn is_start(reply: &Reply) -> bool
    ensures { result ≡ is_start reply.now }
{
    matches!(
        reply,
        Reply::Plain {
            answer: Answer::Started(_),
            ..
        }
    )
}

/// Whether it refuses the request.
fn is_refused(reply: &Reply) -> bool
    ensures { result ≡ is_refused reply.now }
{
    matches!(
        reply,
        Reply::Plain {
            answer: Answer::Refused(_),
            ..
        }
    )
}

/// Whether it begins a check.
fn is_check(reply: &Reply) -> bool
    ensures { result ≡ is_check reply.now }
{
    matches!(
        reply,
        Reply::Plain {
            answer: Answer::Checking(_),
            ..
        }
    )
}

/// Whether it takes a hint.
fn is_hint(reply: &Reply) -> bool
    ensures { result ≡ is_hint reply.now }
{
    matches!(
        reply,
        Reply::Plain {
            answer: Answer::Hint(_),
            ..
        }
    )
}

/// How many effects it has.
fn effect_count(reply: &Reply) -> usize
    ensures { result ≡ effect_count reply.now }
{
    match reply {
        Reply::Plain { effects, .. } => effects.len(),
        _ => 0,
    }
}

impl Counts {
    /// No reply yet.
    pub(crate) fn new() -> Counts
        ensures none { AreCounts result [] }
        ensures few { AreFew result }
        ensures requests { result.requests ≡ 0 }
    {
        Counts {
            requests: 0,
            started: 0,
            refused: 0,
            checks: 0,
            hints: 0,
            effects: 0,
        }
    }

    /// Counts one reply more.
    pub(crate) fn count(&mut self, reply: &Reply)
        requires room { self.old.requests < 2 ^ 32 }
        requires few { AreFew self.old }
        requires effects { HasFewEffects reply.now }
        ensures counted { (replies : List Reply) → AreCounts self.old replies → AreCounts self.new (replies ++ reply.now ∷ []) }
        ensures requests { self.new.requests ≡ self.old.requests + 1 }
        ensures few { AreFew self.new }
    {
        self.requests += 1;
        self.started += u64::from(is_start(reply));
        self.refused += u64::from(is_refused(reply));
        self.checks += u64::from(is_check(reply));
        self.hints += u64::from(is_hint(reply));
        self.effects += effect_count(reply) as u64;
    }

    /// The line that tells them.
    pub(crate) fn line(&self, alloc: Global) -> Result<String, OutOfMemory>
        ensures line { IfOk result (λ line. (replies : List Reply) → AreCounts self.now replies → string_bytes line ≡ counts_line replies) }
    {
        let (requests, started, refused) = (self.requests, self.started, self.refused);
        let (checks, hints, effects) = (self.checks, self.hints, self.effects);
        Ok(format!(in alloc;
            "requests {requests} started {started} refused {refused} checks {checks} hints {hints} effects {effects}\n"
        )?)
    }
}
