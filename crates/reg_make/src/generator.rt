//! The generator.

ghost use Rattle.std.specs.Prelude.{◌≡◌, ◌≤◌, [], ◌∷◌, MatchOption, IfOk, IfSome, OnErr};
ghost use Rattle.reg_journal.specs.Requests.{IsAskable};
ghost use Rattle.reg_make.specs.Made.{made_requests};

use crate::draws::Draws;
use crate::radios::RadiosLeft;
use crate::turn::turn;
use reg_journal::Request;
use reg_lists::OutOfMemory;
use std::alloc::Global;
use std::marker::Model;

/// Makes requests one by one. Contracts see it as the list of those that are left.
#[derive(Debug, Drop)]
pub struct Generator {
    alloc: Global,
    radios: RadiosLeft,
    turns: u32,
    draws: Draws,
    /// The moment after the last request, in ms.
    moment: u64,
}

impl Model for Generator {
    ghost use Rattle.std.specs.Prelude.{◌+◌, ◌*◌, ◌-◌, ◌++◌, ◌≤◌, List};
    ghost use Rattle.reg_journal.specs.declared.request.Request.{Request};
    ghost use Rattle.reg_make.specs.inner.Left.{left_of_radios};
    ghost use Rattle.reg_make.specs.Made.{of_turns};

    ghost Value = { List Request };

    ghost view = { λ g. left_of_radios g.radios.count g.radios.first g.radios.part ++ of_turns g.turns g.moment g.draws.number };

    ghost invariant = { λ g. (g.radios.count + g.radios.first ≤ 8) × (g.moment + 100000 * g.turns ≤ 100000000000) };
}

impl Generator {
    /// Makes the requests for eight radios and `n` drawn ones.
    pub fn new(alloc: Global, n: u32) -> Generator
        requires some { 1 ≤ n }
        requires few { n ≤ 1000000 }
        ensures requests { result ≡ made_requests n }
    {
        Generator {
            alloc,
            radios: RadiosLeft::new(),
            turns: n,
            draws: Draws::new(u64::from(n)),
            moment: 0,
        }
    }

    /// The next request, or `None` exactly where none is left. `OutOfMemory` changes nothing.
    #[tactic(auto, using(crate::proofs::Left::none_left, crate::proofs::Left::one_turn))]
    pub fn next(&mut self) -> Result<Option<Request>, OutOfMemory>
        ensures next { IfOk result (λ next. MatchOption next ((self.old ≡ []) × (self.new ≡ [])) (λ q. self.old ≡ q ∷ self.new)) }
        ensures askable { IfOk result (λ next. IfSome next IsAskable) }
        ensures memory { OnErr result (self.new ≡ self.old) }
    {
        if self.radios.count > 0 {
            return Ok(Some(self.radios.next()));
        }
        if self.turns == 0 {
            return Ok(None);
        }
        let mut draws = self.draws;
        let mut moment = self.moment;
        let request = turn(self.alloc, &mut draws, &mut moment)?;
        self.moment = moment;
        self.draws = draws;
        self.turns -= 1;
        Ok(Some(request))
    }
}
