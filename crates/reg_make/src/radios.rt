//! The requests of radios and their interfaces.

ghost use Rattle.std.specs.Prelude.{◌≡◌, ◌<◌, ◌≤◌, ◌+◌, ◌∷◌};
ghost use Rattle.reg_journal.specs.Requests.{IsAskable};
ghost use Rattle.reg_make.specs.Made.{of_radios};
ghost use Rattle.reg_make.specs.inner.Left.{left_of_radios};

use crate::parts::{ap_name, profile, radio, sta_name};
use chan_def::Kind;
use reg_journal::Request;

/// What is left to be asked of a radio.
#[derive(Clone, Copy, Debug)]
pub(crate) enum Part {
    /// That it comes, and its interfaces.
    Whole,
    /// Both interfaces.
    Ifaces,
    /// The station.
    LastIface,
}

/// The radios that are left.
#[derive(Clone, Copy, Debug)]
pub(crate) struct RadiosLeft {
    /// How many are left, with the one that is left in part.
    pub(crate) count: u32,
    /// The number of the first.
    pub(crate) first: u32,
    /// What is left of the first.
    pub(crate) part: Part,
}

impl RadiosLeft {
    /// Eight radios.
    #[tactic(auto, using(crate::proofs::Left::eight))]
    pub(crate) fn new() -> RadiosLeft
        ensures all { left_of_radios result.count result.first result.part ≡ of_radios 8 0 }
        ensures few { result.count + result.first ≤ 8 }
    {
        RadiosLeft {
            count: 8,
            first: 0,
            part: Part::Whole,
        }
    }

    /// The next request.
    pub(crate) fn next(&mut self) -> Request
        requires some { 0 < self.old.count }
        requires few { self.old.count + self.old.first ≤ 8 }
        ensures next { left_of_radios self.old.count self.old.first self.old.part ≡ result ∷ left_of_radios self.new.count self.new.first self.new.part }
        ensures few { self.new.count + self.new.first ≤ 8 }
        ensures askable { IsAskable result }
    {
        match self.part {
            Part::Whole => {
                self.part = Part::Ifaces;
                Request::RadioAdd {
                    radio: radio(self.first),
                    profile: profile(),
                }
            }
            Part::Ifaces => {
                self.part = Part::LastIface;
                Request::IfaceAdd {
                    radio: radio(self.first),
                    name: ap_name(self.first),
                    kind: Kind::Ap,
                }
            }
            Part::LastIface => {
                let number = self.first;
                self.count -= 1;
                self.first += 1;
                self.part = Part::Whole;
                Request::IfaceAdd {
                    radio: radio(number),
                    name: sta_name(number),
                    kind: Kind::Station,
                }
            }
        }
    }
}
