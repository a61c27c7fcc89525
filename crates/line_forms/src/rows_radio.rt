//! Rows of lines on the moment, on simulated radios, and on what they meet.

use crate::slot::Slot::{
    self, Bands, Centre, Code, Contexts, Fixed, Hex, Mhz, Moment, MostPower, RadarWidth, Radio,
    Rules, Twenty, Wide, Width, WordForm,
};
use crate::slot::Word::{
    Add, At, BandsOf, ContextsOf, Deaf, Del, Driver, Element, Indoor, Off, On, PowerOf, RadarOf,
    RadioOf, RulesOf, SelfManaged, WidthOf,
};

pub const AT: [Slot; 2] = [Fixed(At), Moment];

pub const RADIO_ADD_NEITHER: [Slot; 13] = [
    Fixed(RadioOf),
    Fixed(Add),
    Radio,
    Fixed(BandsOf),
    Bands,
    Fixed(WidthOf),
    Width,
    Fixed(RadarOf),
    RadarWidth,
    Fixed(PowerOf),
    MostPower,
    Fixed(ContextsOf),
    Contexts,
];

pub const RADIO_ADD_ONLY_SELF: [Slot; 14] = [
    Fixed(RadioOf),
    Fixed(Add),
    Radio,
    Fixed(BandsOf),
    Bands,
    Fixed(WidthOf),
    Width,
    Fixed(RadarOf),
    RadarWidth,
    Fixed(PowerOf),
    MostPower,
    Fixed(ContextsOf),
    Contexts,
    Fixed(SelfManaged),
];

pub const RADIO_ADD_ONLY_DEAF: [Slot; 14] = [
    Fixed(RadioOf),
    Fixed(Add),
    Radio,
    Fixed(BandsOf),
    Bands,
    Fixed(WidthOf),
    Width,
    Fixed(RadarOf),
    RadarWidth,
    Fixed(PowerOf),
    MostPower,
    Fixed(ContextsOf),
    Contexts,
    Fixed(Deaf),
];

pub const RADIO_ADD_BOTH: [Slot; 15] = [
    Fixed(RadioOf),
    Fixed(Add),
    Radio,
    Fixed(BandsOf),
    Bands,
    Fixed(WidthOf),
    Width,
    Fixed(RadarOf),
    RadarWidth,
    Fixed(PowerOf),
    MostPower,
    Fixed(ContextsOf),
    Contexts,
    Fixed(SelfManaged),
    Fixed(Deaf),
];

pub const RADIO_DEL: [Slot; 3] = [Fixed(RadioOf), Fixed(Del), Radio];

pub const RADIO_RULES: [Slot; 4] = [Fixed(RadioOf), Fixed(RulesOf), Radio, Rules];

pub const ELEMENT: [Slot; 3] = [Fixed(Element), Radio, Hex];

pub const DRIVER_HINT: [Slot; 3] = [Fixed(Driver), Radio, Code];

pub const RADAR_ALONE: [Slot; 3] = [Fixed(RadarOf), Radio, Mhz];

pub const RADAR_BY_WORD: [Slot; 4] = [Fixed(RadarOf), Radio, Mhz, WordForm];

pub const RADAR_TWENTY: [Slot; 4] = [Fixed(RadarOf), Radio, Mhz, Twenty];

pub const RADAR_BLOCK: [Slot; 5] = [Fixed(RadarOf), Radio, Mhz, Wide, Centre];

pub const INDOOR_ON: [Slot; 2] = [Fixed(Indoor), Fixed(On)];

pub const INDOOR_OFF: [Slot; 2] = [Fixed(Indoor), Fixed(Off)];
