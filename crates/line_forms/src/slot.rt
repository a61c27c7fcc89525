//! The slots of lines, and the fixed words.

ghost use Rattle.std.specs.Prelude.{◌≡◌};
ghost use Rattle.line_forms.specs.Slots.{sort_of, fixed_text};

/// A word that stands for itself.
#[derive(Clone, Copy)]
pub enum Word {
    At,
    RadioOf,
    Add,
    Del,
    RulesOf,
    BandsOf,
    WidthOf,
    RadarOf,
    PowerOf,
    ContextsOf,
    SelfManaged,
    Deaf,
    Element,
    Driver,
    Indoor,
    On,
    Off,
    Iw,
    Reg,
    Get,
    Set,
    Phy,
    Info,
    Channels,
    Interface,
    TypeOf,
    Dev,
    FreqOf,
    ChannelOf,
    TxPower,
    Auto,
    Limit,
    FixedAt,
    Cac,
    Trigger,
    Ap,
    Start,
    Stop,
    Head,
    Ibss,
    Join,
    Leave,
    Mesh,
    Connect,
    Disconnect,
}

/// What a word of a line has to be.
#[derive(Clone, Copy)]
pub enum Slot {
    /// This word.
    Fixed(Word),
    /// A moment, in ms.
    Moment,
    /// `phy0` to `phy7`.
    Radio,
    /// The bands of a radio.
    Bands,
    /// A radio's greatest width, in MHz.
    Width,
    /// Its greatest width where it checks for radar (CAC), in MHz, or 0.
    RadarWidth,
    /// Its greatest power, in mBm.
    MostPower,
    /// On how many channels it can be at once.
    Contexts,
    /// Rules up to the end of the line. They are judged as a whole.
    Rules,
    /// Bytes in hexadecimal.
    Hex,
    /// The code of a country.
    Code,
    /// A frequency, in MHz.
    Mhz,
    /// The number of a channel.
    ChannelNo,
    /// A word of iw for the channel round a control channel.
    WordForm,
    /// `20`.
    Twenty,
    /// A width, in MHz.
    Wide,
    /// The centre of a channel, in MHz.
    Centre,
    /// The name of an interface.
    Name,
    /// The kind of an interface.
    OfKind,
    /// A power, in mBm.
    Power,
    /// The name of a network or of a mesh.
    Ssid,
    /// A beacon interval.
    Interval,
    /// A DTIM period.
    Dtim,
}

/// What kind of words a slot takes: one word, numbers, or words of some other form.
#[derive(Clone, Copy)]
pub enum Sort {
    OneWord,
    Number,
    OtherForm,
}

/// The bytes of a fixed word.
pub fn text(word: Word) -> &'static [u8]
    ensures { result.now ≡ fixed_text word }
{
    match word {
        Word::At => b"at",
        Word::RadioOf => b"radio",
        Word::Add => b"add",
        Word::Del => b"del",
        Word::RulesOf => b"rules",
        Word::BandsOf => b"bands",
        Word::WidthOf => b"width",
        Word::RadarOf => b"radar",
        Word::PowerOf => b"power",
        Word::ContextsOf => b"contexts",
        Word::SelfManaged => b"self",
        Word::Deaf => b"noie",
        Word::Element => b"element",
        Word::Driver => b"driver",
        Word::Indoor => b"indoor",
        Word::On => b"on",
        Word::Off => b"off",
        Word::Iw => b"iw",
        Word::Reg => b"reg",
        Word::Get => b"get",
        Word::Set => b"set",
        Word::Phy => b"phy",
        Word::Info => b"info",
        Word::Channels => b"channels",
        Word::Interface => b"interface",
        Word::TypeOf => b"type",
        Word::Dev => b"dev",
        Word::FreqOf => b"freq",
        Word::ChannelOf => b"channel",
        Word::TxPower => b"txpower",
        Word::Auto => b"auto",
        Word::Limit => b"limit",
        Word::FixedAt => b"fixed",
        Word::Cac => b"cac",
        Word::Trigger => b"trigger",
        Word::Ap => b"ap",
        Word::Start => b"start",
        Word::Stop => b"stop",
        Word::Head => b"head",
        Word::Ibss => b"ibss",
        Word::Join => b"join",
        Word::Leave => b"leave",
        Word::Mesh => b"mesh",
        Word::Connect => b"connect",
        Word::Disconnect => b"disconnect",
    }
}

/// The kind of words that the slot takes.
pub fn kind_of_slot(slot: Slot) -> Sort
    ensures { result ≡ sort_of slot }
{
    match slot {
        Slot::Fixed(_) => Sort::OneWord,
        Slot::Moment | Slot::Width | Slot::RadarWidth | Slot::MostPower | Slot::Contexts => {
            Sort::Number
        }
        Slot::Mhz | Slot::ChannelNo | Slot::Twenty | Slot::Wide | Slot::Centre => Sort::Number,
        Slot::Power | Slot::Interval | Slot::Dtim => Sort::Number,
        Slot::Radio | Slot::Bands | Slot::Rules | Slot::Hex | Slot::Code => Sort::OtherForm,
        Slot::WordForm | Slot::Name | Slot::OfKind | Slot::Ssid => Sort::OtherForm,
    }
}
