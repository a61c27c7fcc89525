//! Finds the form of a line.

ghost use Rattle.std.specs.Prelude.{◌≡◌, ◌<◌, ◌≤◌, ℕ, Contains, IfErr, IfOk, IsTrue, length, ◌↔◌};
ghost use Rattle.line_forms.specs.Forms.{HasForm};
ghost use Rattle.line_forms.specs.Words.{words_of};
ghost use Rattle.line_forms.specs.inner.Walking.{IsFurthest, IsLater, IsNoLater, gravity};
ghost use Rattle.line_forms.specs.declared.walker.End.TheVariants.{Whole};

use crate::draft::Draft;
use crate::form::Form;
use crate::table::slots;
use crate::walker::{Blame, End, Stop, walk};
use crate::words::Words;

/// How grave it is that a walk ends so.
fn gravity(end: End) -> u8
    ensures { result ≡ gravity end }
{
    match end {
        End::Whole => 0,
        End::Short => 0,
        End::Bad(Blame::NoWord) => 0,
        End::Bad(Blame::NoForm) => 1,
        End::Bad(Blame::NoNumber) => 2,
        End::Bad(Blame::OutOfRange) => 3,
    }
}

/// Whether the one stop is no further on the line than the other, or is there and no graver.
fn is_no_later(one: Stop, other: Stop) -> bool
    ensures { IsTrue result ↔ IsNoLater one.taken one.end other }
{
    one.taken < other.taken || one.taken == other.taken && gravity(one.end) <= gravity(other.end)
}

/// Whether each slot has its word, and no word is left.
fn is_whole(end: End) -> bool
    ensures { IsTrue result ↔ (end ≡ Whole) }
{
    match end {
        End::Whole => true,
        End::Short => false,
        End::Bad(_) => false,
    }
}

/// The later of two stops; of two that are alike, the first.
fn later(best: Option<Stop>, found: Stop) -> Stop
    ensures { IsLater best found result }
{
    match best {
        Some(one) if is_no_later(found, one) => one,
        _ => found,
    }
}

/// The form that the line has, and what its words tell; or the stop that is furthest on the line.
pub fn read<'a>(forms: &[Form], line: &'a [u8]) -> Result<(Form, Draft<'a>), Stop>
    ensures form { IfOk result (λ x. Contains forms.now x.0 × HasForm (words_of line.now) x.0 x.1) }
    ensures stop { IfErr result (λ stop. 0 < length forms.now → IsFurthest forms.now (words_of line.now) stop) }
    ensures few { IfErr result (λ stop. stop.taken ≤ 15) }
{
    let mut best = None;
    for form in forms {
        let mut words = Words::new(line);
        let (stop, draft) = walk(slots(*form), &mut words);
        if is_whole(stop.end) {
            return Ok((*form, draft));
        }
        best = Some(later(best, stop));
    }
    match best {
        Some(stop) => Err(stop),
        None => Err(Stop {
            taken: 0,
            end: End::Short,
        }),
    }
}
