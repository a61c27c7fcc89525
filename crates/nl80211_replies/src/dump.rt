//! The frame of a dump.

ghost use Rattle.std.specs.Prelude.{◌≡◌, ◌++◌, ◌∷◌, [], pos, OnOk};
ghost use Rattle.nl_attrs.specs.Messages.{pid_of, seq_of};
ghost use Rattle.nl_attrs.specs.declared.message.Msg.TheVariants.{Done};
ghost use Rattle.nl80211_cmds.specs.Commands.{family_number};
ghost use Rattle.nl80211_replies.specs.Dumps.{dump_message};
ghost use Rattle.nl80211_replies.specs.declared.attribute.TheConstants.{MULTI};

use crate::attribute::{MULTI, VERSION};
use nl_attrs::{AttrList, Msg, MsgList};
use nl80211_cmds::{Family, seq_and_pid};
use reg_lists::OutOfMemory;

/// Appends a message of the dump that answers the request.
pub(crate) fn push_shown(
    msgs: &mut MsgList,
    request: &Msg,
    family: Family,
    cmd: u8,
    attrs: AttrList,
) -> Result<(), OutOfMemory>
    ensures { OnOk result (msgs.new ≡ msgs.old ++ dump_message request.now (family_number family) cmd attrs ∷ []) }
{
    let (seq, pid) = seq_and_pid(request);
    msgs.push(Msg::Generic {
        family: family.number(),
        flags: MULTI,
        seq,
        pid,
        cmd,
        version: VERSION,
        attrs,
    })
}

/// Appends the end of the dump that answers the request.
pub(crate) fn push_done(msgs: &mut MsgList, request: &Msg) -> Result<(), OutOfMemory>
    ensures { OnOk result (msgs.new ≡ msgs.old ++ Done MULTI (seq_of request.now) (pid_of request.now) (pos 0) ∷ []) }
{
    let (seq, pid) = seq_and_pid(request);
    msgs.push(Msg::Done {
        flags: MULTI,
        seq,
        pid,
        code: 0,
    })
}
