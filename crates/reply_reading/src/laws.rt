//! A law over all replies.

ghost use Rattle.std.specs.Prelude.{◌≡◌};
ghost use Rattle.nl_attrs.specs.declared.message.Msg.{Msg};
ghost use Rattle.reg_journal.specs.declared.reply.Reply.{Reply};
ghost use Rattle.nl80211_replies.specs.Dumps.{reply_messages};
ghost use Rattle.reply_reading.specs.Replies.{CanBeTold};
ghost use Rattle.reply_reading.specs.Typed.{IsTypedReply};

/// Two replies that can be told and have the same messages, to the same request or to two, are one reply.
pub fn replies_read_back()
    ensures one { (m n : Msg) (reply other : Reply) → IsTypedReply reply → IsTypedReply other → CanBeTold reply → CanBeTold other
        → reply_messages m reply ≡ reply_messages n other → reply ≡ other }
{}
