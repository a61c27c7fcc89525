//! What the hints have led to, and what the next one changes.

ghost use Rattle.std.specs.Prelude.{◌≡◌, List, ◌∷◌, slice_get, MatchResult, OnOk, OnErr};
ghost use Rattle.reg_hints.specs.Table.{Hinted, Treated, IsGlobal, IsOneTooMany, no_hints, treatment, after_hint, after_all};

use crate::codes::CodeList;
use crate::hint::{Hint, Last, Treatment, WORLD};
use crate::radio::RadioNo;
use rule_tables::Alpha2;
use std::marker::Model;

/// The global list has four codes, and the hint would add one.
#[derive(Clone, Copy, Debug, PartialEq, Eq)]
pub struct TooManyDomains;

/// The last hint, and the global list: one to four codes, whose domains apply to every radio that
/// isn't self-managed (`get_cfg80211_regdom`).
#[derive(Debug, Drop)]
pub struct Hints {
    last: Last,
    global: CodeList,
}

impl Model for Hints {
    ghost use Rattle.reg_hints.specs.Table.{State};

    ghost Value = { State };

    ghost view = { λ h. record { last = h.last; global = h.global } };
}

impl Hints {
    /// No hint yet, and the world's domain alone.
    pub fn new() -> Hints
        ensures opening { result ≡ no_hints }
    {
        Hints {
            last: Last::Core,
            global: CodeList::one(WORLD),
        }
    }

    /// The last hint that was taken.
    pub fn last(&self) -> Last
        ensures last { result ≡ self.now.last }
    {
        self.last
    }

    /// The code at place `k` of the global list, counted from 0. `None` exactly past the end.
    pub fn global(&self, k: usize) -> Option<Alpha2>
        ensures code { result ≡ slice_get self.now.global k }
        ensures few { IsGlobal self.now.global }
    {
        self.global.get(k)
    }

    /// How the hint is treated (`__reg_process_hint`).
    pub fn treat(&self, h: &Hint) -> Treatment
        ensures table { result ≡ treatment self.now h.now }
    {
        match h {
            Hint::User(alpha2) => self.treat_user(alpha2),
            Hint::Driver { radio, alpha2 } => self.treat_driver(radio, alpha2),
            Hint::Element {
                radio,
                alpha2,
                deaf,
            } => self.treat_element(radio, alpha2, *deaf),
        }
    }

    /// Treats the hint. Replace and Intersect change the global list and make it the last hint, as
    /// Already does a driver's. `TooManyDomains`, exactly where it would add a fifth code, changes
    /// nothing.
    pub fn apply(&mut self, h: &Hint) -> Result<Treatment, TooManyDomains>
        ensures answer { MatchResult result
            (λ t. (t ≡ treatment self.old h.now) × (IsOneTooMany self.old h.now → ⊥))
            (λ _. IsOneTooMany self.old h.now) }
        ensures step { OnOk result (self.new ≡ after_hint h.now self.old) }
        ensures fold { OnOk result ((earlier : List Hinted) → after_all earlier ≡ self.old
            → after_all (Treated h.now ∷ earlier) ≡ self.new) }
        ensures unchanged { OnErr result (self.new ≡ self.old) }
    {
        let treatment = self.treat(h);
        match treatment {
            Treatment::Replace => {
                self.last = h.as_last(false);
                self.global = CodeList::one(h.alpha2());
            }
            Treatment::Intersect => {
                if self.global.is_full() {
                    return Err(TooManyDomains);
                }
                self.last = h.as_last(true);
                self.global.push(h.alpha2());
            }
            Treatment::Already => {
                if h.is_drivers() {
                    self.last = h.as_last(false);
                }
            }
            Treatment::Ignore => {}
        }
        Ok(treatment)
    }

    /// The same hints once more.
    pub fn same(&self) -> Self
        ensures { result ≡ self.now }
    {
        Hints {
            last: self.last,
            global: self.global.same(),
        }
    }

    /// How a user's hint is treated (`reg_process_hint_user`).
    fn treat_user(&self, alpha2: &Alpha2) -> Treatment
        ensures { result ≡ treatment self.now (Hint.User alpha2.now) }
    {
        if self.last.is_element() {
            Treatment::Intersect
        } else if self.last.is_intersected_user() || !self.global.is_only(&self.last.alpha2()) {
            Treatment::Ignore
        } else if self.global.is_only(alpha2) {
            Treatment::Already
        } else {
            Treatment::Replace
        }
    }

    /// How a driver's hint is treated (`reg_process_hint_driver`).
    fn treat_driver(&self, radio: &RadioNo, alpha2: &Alpha2) -> Treatment
        ensures { result ≡ treatment self.now (Hint.Driver radio.now alpha2.now) }
    {
        if self.last.is_core() {
            if self.global.is_only(alpha2) {
                Treatment::Already
            } else {
                Treatment::Replace
            }
        } else if self.last.is_driver() && self.global.is_only(alpha2) {
            Treatment::Already
        } else {
            Treatment::Intersect
        }
    }

    /// How a country element is treated (`reg_process_hint_country_ie`).
    #[tactic(auto, using(crate::proofs::Cases::of_this_radio))]
    fn treat_element(&self, radio: &RadioNo, alpha2: &Alpha2, deaf: bool) -> Treatment
        ensures { result ≡ treatment self.now (Hint.Element radio.now alpha2.now deaf) }
    {
        if deaf {
            Treatment::Ignore
        } else if !self.last.is_element() {
            Treatment::Replace
        } else if self.global.is_only(alpha2) {
            Treatment::Already
        } else if self.last.is_element_of_other(radio) {
            Treatment::Ignore
        } else {
            Treatment::Replace
        }
    }
}
