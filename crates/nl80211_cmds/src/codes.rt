//! The numbers of answers.

ghost use Rattle.std.specs.Prelude.{◌≡◌, pos, neg_ℤ};
ghost use Rattle.reg_journal.specs.Codes.{code_and_errno};

use reg_journal::Refusal;

/// The code of a refusal and its errno, which is answered below 0.
fn code_and_errno(refusal: &Refusal) -> (u8, u8)
    ensures code { result.0 ≡ (code_and_errno refusal.now).0 }
    ensures errno { result.1 ≡ (code_and_errno refusal.now).1 }
{
    match refusal {
        Refusal::MomentBack(_) => (20, 22),
        Refusal::MomentTooLarge(_) => (21, 34),
        Refusal::NoRadio(_) => (22, 19),
        Refusal::SlotUsed(_) => (23, 17),
        Refusal::NoInterface(_) => (24, 19),
        Refusal::NameTaken(_) => (25, 17),
        Refusal::Full => (26, 23),
        Refusal::WrongType => (27, 95),
        Refusal::Busy => (28, 16),
        Refusal::BadChannel => (29, 22),
        Refusal::RadioLacks(_) => (30, 22),
        Refusal::RadioLacksWidth(_) => (31, 22),
        Refusal::RadioLacksContext(_) => (32, 16),
        Refusal::NoRule(_) => (33, 22),
        Refusal::Width(_) => (34, 22),
        Refusal::NoOfdm(_) => (35, 22),
        Refusal::NoIr(_) => (36, 22),
        Refusal::NoOutdoor(_) => (37, 22),
        Refusal::Power(_) => (38, 34),
        Refusal::RadioLacksRadarWidth(_) => (39, 22),
        Refusal::Radar(_) => (40, 22),
        Refusal::Unchecked(_) => (41, 22),
        Refusal::DriverFailed => (42, 5),
        Refusal::NothingToCheck => (43, 114),
        Refusal::NotRunning => (44, 2),
        Refusal::NoCountry(_) => (45, 2),
        Refusal::TooManyDomains => (46, 23),
        Refusal::TooManyRows(_) => (47, 23),
        Refusal::NoRules => (48, 22),
        Refusal::TooManyRules(_) => (49, 22),
        Refusal::BadRule(_) => (50, 22),
        Refusal::ElementShort(_) => (51, 22),
        Refusal::ElementOdd(_) => (52, 22),
        Refusal::ElementNotLetters => (53, 22),
    }
}

/// The code of a refusal, from 20 on.
pub fn code(refusal: &Refusal) -> u8
    ensures code { result ≡ (code_and_errno refusal.now).0 }
{
    code_and_errno(refusal).0
}

/// The errno of a refusal, as it is answered: below 0.
pub fn errno(refusal: &Refusal) -> i32
    ensures errno { result ≡ neg_ℤ (pos (code_and_errno refusal.now).1) }
{
    -i32::from(code_and_errno(refusal).1)
}
