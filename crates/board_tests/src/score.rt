//! A value to publish, and the steps that the tests share.
ghost use Rattle.std.specs.Prelude.{◌≡◌, IfOk};

use rule_publish::{Board, Looker, Numbered, OutOfMemory, Teller};
use std::alloc::Global;
use std::sync::Wait;

/// A number alone.
#[derive(Clone, Copy, Debug)]
pub(crate) struct Score {
    pub number: u64,
}

impl Numbered for Score {
    type Name = ();

    ghost number = { λ s. s.number };

    ghost name = { λ _. tt };

    fn number(&self) -> u64 {
        self.number
    }
}

/// The Teller after it published the next number.
pub(crate) fn raised<R: Wait + Drop>(
    teller: Teller<Score, R>,
    alloc: Global,
) -> Result<Teller<Score, R>, OutOfMemory> {
    let number = teller.shown_number().saturating_add(1);
    let (teller, done) = teller.publish(alloc, Score { number });
    done?;
    Ok(teller)
}

/// The reader after one look, and the number that it saw.
pub(crate) fn looked(looker: Looker<Score>) -> (Looker<Score>, u64) {
    let look = looker.enter();
    let number = look.value().number;
    (look.leave(), number)
}
