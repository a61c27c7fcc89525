//! Error messages.

ghost use Rattle.std.specs.Prelude.{◌≡◌, ◌≤◌, length, IsOkAnd};
ghost use Rattle.nl_attrs.specs.Messages.{pid_of, seq_of, spelled};
ghost use Rattle.nl80211_cmds.specs.Errors.{error_answer};

use nl_attrs::{Msg, head_of};
use reg_lists::OutOfMemory;
use std::alloc::Global;

/// The sequence number of a message, and its port.
pub fn seq_and_pid(m: &Msg) -> (u32, u32)
    ensures seq { result.0 ≡ seq_of m.now }
    ensures pid { result.1 ≡ pid_of m.now }
{
    match m {
        Msg::Generic { seq, pid, .. } | Msg::Error { seq, pid, .. } | Msg::Done { seq, pid, .. } =>
            { (*seq, *pid) }
    }
}

/// The Error message that answers a request (`struct nlmsgerr`), with an errno below 0 or with 0. The
/// request is one that `encode` doesn't refuse as too long. No memory is taken.
pub fn msg_of_errno(_alloc: Global, request: &Msg, errno: i32) -> Result<Msg, OutOfMemory>
    requires { length (spelled request.now) ≤ 65536 }
    ensures { IsOkAnd result (λ m. m ≡ error_answer request.now errno) }
{
    let (seq, pid) = seq_and_pid(request);
    Ok(Msg::Error {
        flags: 0,
        seq,
        pid,
        code: errno,
        head: head_of(request),
    })
}
