//! The eight places of radios.

ghost use Rattle.std.specs.Prelude.{◌≡◌, ◌==◌, ◌∷◌, ◌≤◌, ◌^◌, ℕ, List, None, Some, false, MatchOption, length, slice_index_or};
ghost use Rattle.std.specs.Option.{option_copied};
ghost use Rattle.rule_tables.specs.declared.domain.Domain.{Domain};
ghost use Rattle.reg_journal.specs.Due.{EachMayFollow, MayFollow};
ghost use Rattle.reg_journal.specs.Facts.{Fact, Journal, moment_is};
ghost use Rattle.reg_journal.specs.Present.{profile_of};
ghost use Rattle.reg_books.specs.Calls.{call_of};
ghost use Rattle.core_parts.specs.Kept.{KeepsRadio, KeepsRadios, radio_in};
ghost use Rattle.core_parts.specs.BookCalls.{SpeaksToBooks, call_in};
ghost use Rattle.reg_books.specs.Sparing.{SparesRadio};
ghost use Rattle.core_parts.specs.declared.radio.RadioPlace.TheVariants.{Free};

use crate::book_call::BookCall;
use crate::radio::{Radio, RadioPlace};
use reg_hints::RadioNo;

/// It is `now`, in ms, for each radio.
pub fn advance_all(radios: &mut [RadioPlace], now: u64)
    requires { now ≤ 10 ^ 15 }
    ensures kept { (db : List Domain) (J : Journal) → KeepsRadios db J radios.old → MayFollow db J (moment_is now)
        → KeepsRadios db (moment_is now ∷ J) radios.new }
{
    for place in radios.iter_mut() {
        place.advance(now);
    }
}

/// The book of the radio is told this, which a fact says of no other radio.
pub fn note_at(radios: &mut [RadioPlace], radio: RadioNo, call: &BookCall)
    requires eight { length radios.old ≡ 8 }
    ensures kept { (db : List Domain) (J : Journal) (f : Fact) → KeepsRadios db J radios.old → SpeaksToBooks f
        → call_of db f J radio ≡ Some (call_in call.now) → ((r : ℕ) → (r == radio) ≡ false → SparesRadio J r f)
        → EachMayFollow db (f ∷ J) → KeepsRadios db (f ∷ J) radios.new }
{
    let place = &mut radios[radio.get() as usize];
    place.note(call);
}

/// The radio of this number, or `None` where it isn't there.
pub fn radio_at(radios: &[RadioPlace], number: RadioNo) -> Option<&Radio>
    ensures kept { (db : List Domain) (J : Journal) → KeepsRadios db J radios.now
        → MatchOption result (profile_of J number ≡ None) (λ radio. KeepsRadio db J number radio.now) }
    ensures place { option_copied result ≡ radio_in (slice_index_or radios.now number Free) }
{
    radios.get(number.get() as usize)?.radio()
}
