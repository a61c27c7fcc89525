//! Why a request is refused.

use radio_drv::Name;
use reg_hints::RadioNo;
use rule_tables::Alpha2;

/// Why a request is refused. Subchannels are told by their centres in kHz.
#[derive(Clone, Copy, Debug, PartialEq, Eq)]
pub enum Refusal {
    /// The moment is before the present one, which is told, in ms.
    MomentBack(u64),
    /// The moment that was asked for, in ms, is above 10^15.
    MomentTooLarge(u64),
    /// The radio isn't there.
    NoRadio(RadioNo),
    /// A radio of this number was there already.
    SlotUsed(RadioNo),
    /// No interface has the name.
    NoInterface(Name),
    /// An interface has the name already.
    NameTaken(Name),
    /// The radio has eight interfaces, or no index is left.
    Full,
    /// The interface isn't of the kind that the request asks for.
    WrongType,
    /// The interface has an operation or a running check.
    Busy,
    /// The channel isn't a valid one.
    BadChannel,
    /// The radio has no channel of 20 MHz round this centre.
    RadioLacks(u32),
    /// The radio can't send so wide, in MHz.
    RadioLacksWidth(u16),
    /// The radio's interfaces would use more channels than this, its most.
    RadioLacksContext(u8),
    /// Some domain has no rule for the subchannel.
    NoRule(u32),
    /// Some rule allows less than the width on the subchannel.
    Width(u32),
    /// Some rule forbids OFDM on the subchannel, and the channel is wider than 20 MHz.
    NoOfdm(u32),
    /// Some rule forbids to initiate radiation on the subchannel.
    NoIr(u32),
    /// Some rule forbids operation outdoors on the subchannel.
    NoOutdoor(u32),
    /// The fixed power is above the limit, which is told, in mBm.
    Power(u16),
    /// The radio can't detect radar so wide, in MHz.
    RadioLacksRadarWidth(u16),
    /// There was radar on the subchannel, and its nonoccupancy (NOP) isn't over.
    Radar(u32),
    /// No check (CAC) stands for the subchannel.
    Unchecked(u32),
    /// The driver failed.
    DriverFailed,
    /// A check stands for each subchannel that has to be checked, or none has to be.
    NothingToCheck,
    /// The interface has no operation.
    NotRunning,
    /// The database has no domain of the code.
    NoCountry(Alpha2),
    /// The global list has four domains already.
    TooManyDomains,
    /// A list of domains would have so many rows, more than 1,024.
    TooManyRows(usize),
    /// There are no rules.
    NoRules,
    /// There are so many rules, more than 32.
    TooManyRules(usize),
    /// The rule at this place, counted from 0, isn't valid.
    BadRule(usize),
    /// The element's body has so many bytes, fewer than 6.
    ElementShort(usize),
    /// The element's body has so many bytes, an odd number.
    ElementOdd(usize),
    /// The element's body doesn't begin with two capital letters.
    ElementNotLetters,
}
