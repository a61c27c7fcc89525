//! A list of one to four codes that takes no memory.

ghost use Rattle.std.specs.Prelude.{◌≡◌, ◌<◌, ◌==◌, ◌≤◌, [], ◌∷◌, ◌++◌, length, slice_get};
ghost use Rattle.reg_hints.specs.Table.{is_only, IsGlobal};

use reg_lists::Few;
use rule_tables::Alpha2;
use std::marker::Model;

/// The most codes of the global list.
pub const MOST_CODES: usize = 4;

/// One to four codes.
#[derive(Debug, Drop)]
pub struct CodeList {
    codes: Few<Alpha2, MOST_CODES>,
}

impl Model for CodeList {
    ghost use Rattle.std.specs.Prelude.{List, ◌<◌, length};
    ghost use Rattle.rule_tables.specs.declared.code.Alpha2.{Alpha2};

    ghost Value = { List Alpha2 };

    ghost view = { λ l. l.codes };

    ghost invariant = { λ l. 0 < length l.codes };
}

impl CodeList {
    /// This code alone.
    pub fn one(code: Alpha2) -> Self
        ensures one { result ≡ code ∷ [] }
    {
        let mut codes = Few::new(code);
        let _pushed = codes.push(code);
        CodeList { codes }
    }

    /// A list of the same codes.
    pub fn same(&self) -> Self
        ensures same { result ≡ self.now }
    {
        CodeList {
            codes: self.codes.same(),
        }
    }

    /// Appends a code where there is room.
    pub fn push(&mut self, code: Alpha2)
        requires room { length self.old < MOST_CODES }
        ensures pushed { self.new ≡ self.old ++ code ∷ [] }
    {
        let _pushed = self.codes.push(code);
    }

    /// Whether there is no room.
    pub fn is_full(&self) -> bool
        ensures full { result ≡ (length self.now == MOST_CODES) }
        ensures few { length self.now ≤ MOST_CODES }
    {
        self.codes.len() == MOST_CODES
    }

    /// The code at place `k`, counted from 0, or `None` past the end.
    pub fn get(&self, k: usize) -> Option<Alpha2>
        ensures code { result ≡ slice_get self.now k }
        ensures few { IsGlobal self.now }
    {
        self.codes.as_slice().get(k).copied()
    }

    /// Whether this code is the only one.
    pub fn is_only(&self, code: &Alpha2) -> bool
        ensures only { result ≡ is_only self.now code.now }
    {
        is_only(self.codes.as_slice(), code)
    }
}

/// Whether this code is the only one.
#[tactic(auto, using(crate::proofs::Cases::same_code))]
fn is_only(codes: &[Alpha2], code: &Alpha2) -> bool
    ensures { result ≡ is_only codes.now code.now }
{
    match codes {
        [only] => only.is_same(code),
        _ => false,
    }
}
