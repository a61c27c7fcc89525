//! An entry of what two domains allow together.

use freq_range::RuleFlags;
use reg_lists::Seq;

/// What two domains allow together on a channel of 20 MHz.
#[derive(Clone, Copy, Debug, PartialEq, Eq)]
pub struct Common {
    /// Its centre, in kHz.
    pub khz: u32,
    /// The lesser of the widths that the two rules allow, in kHz.
    pub width_khz: u32,
    /// The lesser power, in mBm (EIRP).
    pub eirp_mbm: u16,
    /// The flags of both rules but AUTO-BW, which the widths have in them.
    pub flags: RuleFlags,
}

/// A list of what two domains allow together.
pub type CommonList = Seq<Common>;
