//! What a published value has.
ghost use Rattle.std.specs.Prelude.{◌≡◌, ℕ};

/// A value with a number, which rises from one published value to the next, and a name, which stays.
pub trait Numbered {
    /// What all values of one board have in common. Contracts alone see it, and no value of it is made.
    type Name;

    ghost number: { Self → ℕ };

    ghost name: { Self → Self.Name };

    /// The value's number.
    fn number(&self) -> u64
        ensures number { result ≡ number self.now };
}
