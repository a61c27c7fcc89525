//! Answers a message.

ghost use Rattle.std.specs.Prelude.{◌≡◌, [], ◌∷◌, ◌++◌, ◌⊎◌, ◌≤◌, ℕ, List, Option, IfErr, OnErr, OnOk, length};
ghost use Rattle.rule_tables.specs.declared.domain.Domain.{Domain};
ghost use Rattle.radio_drv.specs.Seen.{Seen};
ghost use Rattle.reg_journal.specs.Facts.{Journal};
ghost use Rattle.reg_journal.specs.Forms.{IsLineRequest};
ghost use Rattle.nl_attrs.specs.Messages.{IsMsg, all_spelled, spelled};
ghost use Rattle.nl_attrs.specs.declared.message.Msg.{Msg};
ghost use Rattle.nl80211_cmds.specs.Errors.{error_answer};
ghost use Rattle.nl80211_cmds.specs.Requests.{MsgAsks};
ghost use Rattle.nl80211_replies.specs.Dumps.{FitsMessages, reply_messages};
ghost use Rattle.core_runs.specs.Driven.{IsAt};
ghost use Rattle.core_runs.specs.Turns.{IsRunSoFar, IsTurn};
ghost use Rattle.db_commands.specs.Devices.{around, driven};
ghost use Rattle.wire_run.specs.Answering.{MessageGives};
ghost use Rattle.wire_run.specs.inner.Steps.{AreShort, HasMessageCause, IsMessageHalt, IsReached};

use crate::messages::{put_messages, put_short};
use nl_attrs::Msg;
use nl80211_cmds::{RequestFault, msg_of_errno, request_of};
use nl80211_replies::msgs_of_reply;
use pack_command::type_request;
use reg_base::{Bytes, Sink};
use reg_core::{Core, DriverRow};
use reg_journal::{Reply, Request};
use reg_lists::OutOfMemory;

/// Why the answering of messages halts.
#[derive(Clone, Copy)]
pub enum Halt {
    /// No memory was found.
    NoMemory,
    /// The answer could not be written.
    WriteFault,
}

/// Answers a message, and writes its answer at once.
pub fn answer_message<K: Sink, D: DriverRow>(
    core: &mut Core,
    message: &Msg,
    text: &mut Bytes,
    out: &mut K,
    drivers: &mut D,
) -> Result<(), Halt>
    requires ready { IsReached core.old (D.seen drivers.old) }
    requires message { IsMsg message.now }
    ensures answered { OnOk result ((db : List Domain) (messages : List Msg) (before : Option (List ℕ)) (heard : List (Option Seen))
        → IsRunSoFar (MessageGives db) db messages before (K.held out.old) core.old heard (D.seen drivers.old)
        → IsRunSoFar (MessageGives db) db (messages ++ message.now ∷ []) before (K.held out.new) core.new heard (D.seen drivers.new)) }
    ensures halted { IfErr result (λ halt. (db : List Domain) (messages : List Msg) (before : Option (List ℕ)) (heard : List (Option Seen)) (n m : ℕ)
        → IsRunSoFar (MessageGives db) db messages before (K.held out.old) core.old heard (D.seen drivers.old)
        → IsMessageHalt db (messages ++ message.now ∷ []) (around before (K.held out.new) n m) (driven heard (D.seen drivers.new)) halt) }
    ensures cause { IfErr result (HasMessageCause (K.count out.old) (K.count out.new)) }
    ensures later { K.count out.old ≤ K.count out.new }
    ensures ready { IsReached core.new (D.seen drivers.new) }
{
    if put_answer(core, message, text, drivers).is_err() {
        return Err(Halt::NoMemory);
    }
    if out.write_all(text.as_slice()).is_err() {
        return Err(Halt::WriteFault);
    }
    Ok(())
}

/// Answers a message. Its answer is then all that the buffer holds. After `OutOfMemory` the core and the
/// drivers are as before or went on to the next journal.
fn put_answer<D: DriverRow>(
    core: &mut Core,
    message: &Msg,
    text: &mut Bytes,
    drivers: &mut D,
) -> Result<(), OutOfMemory>
    requires ready { IsReached core.old (D.seen drivers.old) }
    requires message { IsMsg message.now }
    ensures answered { OnOk result ((db : List Domain) (J : Journal) → IsAt db J core.old (D.seen drivers.old)
        → IsTurn (MessageGives db) db J message.now text.new core.new (D.seen drivers.old) (D.seen drivers.new)) }
    ensures stopped { OnErr result ((db : List Domain) (J : Journal) → IsAt db J core.old (D.seen drivers.old)
        → (D.seen drivers.new ≡ D.seen drivers.old)
        ⊎ ((answer : List ℕ) × IsTurn (MessageGives db) db J message.now answer core.new (D.seen drivers.old) (D.seen drivers.new))) }
    ensures ready { IsReached core.new (D.seen drivers.new) }
{
    match request_of(text.allocator(), message) {
        Ok(request) => put_reply(core, message, &request, text, drivers),
        Err(RequestFault::Errno(errno)) => put_errno(message, errno, text),
        Err(RequestFault::OutOfMemory) => Err(OutOfMemory),
    }
}

/// Asks the request of the core. The messages of its reply are then all that the buffer holds. After
/// `OutOfMemory` the core and the drivers are as before or went on to the next journal.
fn put_reply<D: DriverRow>(
    core: &mut Core,
    message: &Msg,
    request: &Request,
    text: &mut Bytes,
    drivers: &mut D,
) -> Result<(), OutOfMemory>
    requires ready { IsReached core.old (D.seen drivers.old) }
    requires message { IsMsg message.now }
    requires line { IsLineRequest request.now }
    requires asks { MsgAsks message.now request.now }
    ensures answered { OnOk result ((db : List Domain) (J : Journal) → IsAt db J core.old (D.seen drivers.old)
        → IsTurn (MessageGives db) db J message.now text.new core.new (D.seen drivers.old) (D.seen drivers.new)) }
    ensures stopped { OnErr result ((db : List Domain) (J : Journal) → IsAt db J core.old (D.seen drivers.old)
        → (D.seen drivers.new ≡ D.seen drivers.old)
        ⊎ ((answer : List ℕ) × IsTurn (MessageGives db) db J message.now answer core.new (D.seen drivers.old) (D.seen drivers.new))) }
    ensures ready { IsReached core.new (D.seen drivers.new) }
{
    type_request(request);
    match core.step(request, drivers) {
        Ok(reply) => put_told(text, message, &reply),
        Err(_no_memory) => Err(OutOfMemory),
    }
}

/// Puts the messages of the reply into the buffer, in place of what it holds.
fn put_told(text: &mut Bytes, message: &Msg, reply: &Reply) -> Result<(), OutOfMemory>
    requires message { length (spelled message.now) ≤ 65536 }
    requires fits { FitsMessages reply.now }
    requires short { AreShort (reply_messages message.now reply.now) }
    ensures { OnOk result (text.new ≡ all_spelled (reply_messages message.now reply.now)) }
{
    text.clear();
    let messages = msgs_of_reply(text.allocator(), message, reply)?;
    put_messages(text, messages.as_slice())
}

/// Puts the message that tells the errno into the buffer, in place of what it holds.
fn put_errno(message: &Msg, errno: i32, text: &mut Bytes) -> Result<(), OutOfMemory>
    requires { length (spelled message.now) ≤ 65536 }
    ensures { OnOk result (text.new ≡ spelled (error_answer message.now errno)) }
{
    text.clear();
    let answer = msg_of_errno(text.allocator(), message, errno)?;
    put_short(text, &answer)
}
