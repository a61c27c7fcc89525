//! What is published.
ghost use Rattle.std.specs.Prelude.{◌≡◌};

use rule_publish::Numbered;

/// Cells that all have the table's number, as those of a torn one would not.
#[derive(Clone, Copy, Debug)]
pub(crate) struct Table {
    number: u64,
    cells: [u64; 32],
}

impl Numbered for Table {
    type Name = ();

    ghost number = { λ t. t.number };

    ghost name = { λ _. tt };

    fn number(&self) -> u64 {
        self.number
    }
}

impl Table {
    pub(crate) fn new(number: u64) -> Table
        ensures number { result.number ≡ number }
    {
        Table {
            number,
            cells: [number; 32],
        }
    }

    /// Its number, and whether its first and its last cell have it.
    pub(crate) fn read(&self) -> (u64, bool) {
        let whole = self.cells[0] == self.number && self.cells[31] == self.number;
        (self.number, whole)
    }
}
