//! The one reply that messages could be.

ghost use Rattle.std.specs.Prelude.{◌≡◌, ◌∷◌, ◌++◌, [], List, IfOk, Some};
ghost use Rattle.nl_attrs.specs.declared.message.Msg.{Msg};
ghost use Rattle.reg_journal.specs.Forms.{IsShownAnswer};
ghost use Rattle.reg_journal.specs.declared.effects.Effect.{Effect};
ghost use Rattle.reg_journal.specs.declared.reply.Answer.{Answer};
ghost use Rattle.reg_journal.specs.declared.reply.Reply.{Reply};
ghost use Rattle.reg_journal.specs.declared.reply.Reply.TheVariants.{Plain};
ghost use Rattle.nl80211_replies.specs.Dumps.{reply_messages};
ghost use Rattle.nl80211_replies.specs.Plain.{plain_attrs};
ghost use Rattle.reply_reading.specs.Replies.{CanBeTold};
ghost use Rattle.reply_reading.specs.Typed.{IsTypedReply};
ghost use Rattle.reply_reading.specs.inner.Shown.{dump_shown, is_error, shown_by};

use crate::answers::answer_in;
use crate::channels::channels_in;
use crate::effects::{effect_attrs, effects_in};
use crate::interfaces::iface_in;
use crate::payloads::{attrs_in, number_at, radio_of};
use crate::radios::radio_in;
use crate::sections::sections_in;
use nl_attrs::{Attr, Msg};
use nl80211_cmds::{Command, Family};
use reg_journal::Reply;
use reg_lists::OutOfMemory;
use std::alloc::Global;

/// What a list of messages shows.
#[derive(Clone, Copy)]
enum Shown {
    /// An answer, with an Error message behind it.
    Answer,
    Sections,
    Channels,
    Radio,
    Iface,
}

/// Whether the message is an Error message.
fn is_error(msg: &Msg) -> bool
    ensures { result ≡ is_error msg.now }
{
    match msg {
        Msg::Error { .. } => true,
        Msg::Generic { .. } | Msg::Done { .. } => false,
    }
}

/// What a dump shows that has such messages.
fn dump_shown(family: u16, cmd: u8) -> Shown
    ensures { result ≡ dump_shown family cmd }
{
    if family == Family::Simulation.number() {
        Shown::Channels
    } else if cmd == Command::GetReg.number() {
        Shown::Sections
    } else if cmd == Command::NewInterface.number() {
        Shown::Iface
    } else {
        Shown::Radio
    }
}

/// What messages show that begin with these two.
fn shown_by(first: &Msg, second: &Msg) -> Shown
    ensures { result ≡ shown_by first.now second.now }
{
    if is_error(second) {
        return Shown::Answer;
    }
    match first {
        Msg::Generic { family, cmd, .. } => dump_shown(*family, *cmd),
        Msg::Error { .. } | Msg::Done { .. } => Shown::Answer,
    }
}

/// The messages but for the last.
fn without_last(msgs: &[Msg]) -> &[Msg]
    ensures { (front : List Msg) (last : Msg) → msgs.now ≡ front ++ last ∷ [] → result.now ≡ front }
{
    match msgs {
        [front @ .., _] => front,
        [] => msgs,
    }
}

/// The plain reply that the attributes of its first message tell.
fn plain_in(alloc: Global, attrs: &[Attr]) -> Result<Reply, OutOfMemory>
    ensures { IfOk result (λ found. (answer : Answer) (effects : List Effect) → IsTypedReply (Plain answer effects) → IsShownAnswer answer
        → attrs.now ≡ plain_attrs answer effects → found ≡ Plain answer effects) }
{
    let answer = answer_in(attrs);
    let effects = effects_in(alloc, effect_attrs(attrs))?;
    Ok(Reply::Plain { answer, effects })
}

/// The one reply whose messages these could be. `None` where they are none.
pub fn candidate(alloc: Global, msgs: &[Msg]) -> Result<Option<Reply>, OutOfMemory>
    ensures { IfOk result (λ found. (request : Msg) (reply : Reply) → IsTypedReply reply → CanBeTold reply
        → msgs.now ≡ reply_messages request reply → found ≡ Some reply) }
{
    let [first, second, ..] = msgs else {
        return Ok(None);
    };
    let attrs = attrs_in(first);
    let shown = without_last(msgs);
    match shown_by(first, second) {
        Shown::Answer => Ok(Some(plain_in(alloc, attrs)?)),
        Shown::Sections => Ok(Some(Reply::Regs(sections_in(alloc, shown)?))),
        Shown::Channels => Ok(Some(Reply::Channels {
            radio: radio_of(u64::from(number_at(attrs, 0))),
            list: channels_in(alloc, shown)?,
        })),
        Shown::Radio => match radio_in(alloc, attrs)? {
            Some(report) => Ok(Some(Reply::Radio(report))),
            None => Ok(None),
        },
        Shown::Iface => Ok(Some(Reply::Iface(iface_in(alloc, attrs)?))),
    }
}
