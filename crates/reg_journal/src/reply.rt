//! Replies.

use crate::effects::Effects;
use crate::lists::{ChanList, SectionList};
use crate::refusal::Refusal;
use crate::report::{IfaceReport, RadioReport};
use reg_hints::{RadioNo, Treatment};

/// How a hint was taken.
#[derive(Clone, Copy, Debug, PartialEq, Eq)]
pub enum HintAnswer {
    /// By the table of hints.
    Treated(Treatment),
    /// As a driver's on a self-managed radio: it sets that radio's own domain alone.
    Own,
}

/// What is answered to a request that shows nothing.
#[derive(Clone, Copy, Debug, PartialEq, Eq)]
pub enum Answer {
    /// Done.
    Ok,
    /// The hint was taken so.
    Hint(HintAnswer),
    /// The operation started with this power, in mBm.
    Started(u16),
    /// The check (CAC) runs for so long, in ms.
    Checking(u32),
    /// Refused, with nothing changed.
    Refused(Refusal),
}

/// What is replied to a request.
#[derive(Debug, Drop)]
pub enum Reply {
    /// An answer, and what came of it to other operations and checks.
    Plain { answer: Answer, effects: Effects },
    /// The rules that hold.
    Regs(SectionList),
    /// The radio's channels.
    Channels { radio: RadioNo, list: ChanList },
    /// The radio.
    Radio(RadioReport),
    /// The interface.
    Iface(IfaceReport),
}
