//! Lists of attributes and of messages that grow.

use crate::attr::Attr;
use crate::message::Msg;
use reg_lists::Seq;

/// A list of attributes.
pub type AttrList = Seq<Attr>;

/// A list of messages.
pub type MsgList = Seq<Msg>;
