//! Numbers that fit their fields: 0 stands for one that doesn't.

ghost use Rattle.std.specs.Prelude.{◌≡◌};
ghost use Rattle.reply_reading.specs.inner.Values.{below, khz_of};

/// The number in 8 bits.
pub fn narrow8(number: u64) -> u8
    ensures { result ≡ below 256 number }
{
    if number < 256 { number as u8 } else { 0 }
}

/// The number in 16 bits.
pub fn narrow16(number: u64) -> u16
    ensures { result ≡ below 65536 number }
{
    if number < 65_536 { number as u16 } else { 0 }
}

/// The number in 32 bits.
pub fn narrow32(number: u64) -> u32
    ensures { result ≡ below 4294967296 number }
{
    if number < 4_294_967_296 {
        number as u32
    } else {
        0
    }
}

/// MHz in kHz.
pub fn khz_of(mhz: u64) -> u32
    ensures { result ≡ khz_of mhz }
{
    if mhz < 4_294_968 {
        1_000 * mhz as u32
    } else {
        0
    }
}
