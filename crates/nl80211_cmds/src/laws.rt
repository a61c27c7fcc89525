//! Laws over all messages and all requests.

ghost use Rattle.std.specs.Prelude.{◌≡◌, ℕ};
ghost use Rattle.nl_attrs.specs.declared.message.Msg.{Msg};
ghost use Rattle.reg_journal.specs.Forms.{IsLineRequest};
ghost use Rattle.reg_journal.specs.Requests.{IsTyped};
ghost use Rattle.reg_journal.specs.declared.request.Request.{Request};
ghost use Rattle.nl80211_cmds.specs.Requests.{IsUnsupported, MsgAsks, message_of};

/// A message asks at most one request, and one that isn't supported asks none. What a message
/// asks, a line of a script can ask, and the message of such a request asks that request.
pub fn one_request()
    ensures one { (m : Msg) (q other : Request) → MsgAsks m q → MsgAsks m other → q ≡ other }
    ensures none { (m : Msg) (q : Request) → IsUnsupported m → MsgAsks m q → ⊥ }
    ensures line { (m : Msg) (q : Request) → MsgAsks m q → IsLineRequest q }
    ensures again { (q : Request) (seq : ℕ) → IsTyped q → IsLineRequest q
        → MsgAsks (message_of q seq) q }
{}
