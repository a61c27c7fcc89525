//! Drawn numbers.

ghost use Rattle.std.specs.Prelude.{◌≡◌, ◌<◌};
ghost use Rattle.reg_make.specs.Draws.{drawn, number_after};

/// A linear congruential generator (Knuth's MMIX).
#[derive(Clone, Copy, Debug)]
pub(crate) struct Draws {
    pub(crate) number: u64,
}

impl Draws {
    /// The generator that begins with this number.
    pub(crate) fn new(number: u64) -> Draws
        ensures { result.number ≡ number }
    {
        Draws { number }
    }

    /// Draws a number below the limit.
    pub(crate) fn below(&mut self, limit: u32) -> u32
        requires { 0 < limit }
        ensures drawn { result ≡ drawn (number_after self.old.number) limit }
        ensures number { self.new.number ≡ number_after self.old.number }
        ensures below { result < limit }
    {
        self.number = number_after(self.number);
        (self.number / 0x2_0000_0000) as u32 % limit
    }
}

/// The number that comes after it.
fn number_after(number: u64) -> u64
    ensures { result ≡ number_after number }
{
    number
        .wrapping_mul(6_364_136_223_846_793_005)
        .wrapping_add(1_442_695_040_888_963_407)
}
