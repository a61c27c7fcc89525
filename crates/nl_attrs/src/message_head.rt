//! The first 16 bytes of a message, which an Error message repeats.

ghost use Rattle.std.specs.Prelude.{◌≡◌, ◌+◌, ◌<◌, ◌≤◌, ◌++◌, ℕ, List, length, take, MatchOption, IsSomeAnd};
ghost use Rattle.nl_attrs.specs.Messages.{IsMsg, head_bytes, spelled};
ghost use Rattle.nl_attrs.specs.inner.Heads.{IsHeadOf};
ghost use Rattle.nl_attrs.specs.inner.Reading.{IsntLong};
ghost use Rattle.nl_attrs.specs.declared.message.Msg.{Msg};

use crate::attr_writer::attrs_len;
use crate::message::{DONE, DONE_BYTES, ERROR, GENERIC_BYTES, HEAD, Head, Msg};
use crate::payloads::byte_count;

/// The head of a message, in bytes.
#[tactic(auto, unfolding(crate::specs::Messages::head_bytes, crate::specs::Endian::le16, crate::specs::Endian::le32))]
fn head_array(head: Head) -> [u8; HEAD]
    ensures { result ≡ head_bytes head.length head.kind head.flags head.seq head.pid }
{
    let [a, b, c, d] = head.length.to_le_bytes();
    let [e, f] = head.kind.to_le_bytes();
    let [g, h] = head.flags.to_le_bytes();
    let [i, j, k, l] = head.seq.to_le_bytes();
    let [m, n, o, p] = head.pid.to_le_bytes();
    [a, b, c, d, e, f, g, h, i, j, k, l, m, n, o, p]
}

/// What stands before the body of the message.
pub fn fields_of(m: &Msg) -> Head
    requires { IsntLong m.now }
    ensures { IsHeadOf m.now result }
{
    match m {
        Msg::Generic {
            family,
            flags,
            seq,
            pid,
            attrs,
            ..
        } => Head {
            length: GENERIC_BYTES + attrs_len(attrs.as_slice()) as u32,
            kind: *family,
            flags: *flags,
            seq: *seq,
            pid: *pid,
        },
        Msg::Error {
            flags,
            seq,
            pid,
            head,
            ..
        } => Head {
            length: DONE_BYTES + byte_count(head) as u32,
            kind: ERROR,
            flags: *flags,
            seq: *seq,
            pid: *pid,
        },
        Msg::Done {
            flags,
            seq,
            pid,
            ..
        } => Head {
            length: DONE_BYTES,
            kind: DONE,
            flags: *flags,
            seq: *seq,
            pid: *pid,
        },
    }
}

/// The first 16 bytes of the message's spelling. It is one that `encode` doesn't refuse as too long.
pub fn head_of(m: &Msg) -> [u8; HEAD]
    requires { length (spelled m.now) ≤ 65536 }
    ensures { result ≡ take 16 (spelled m.now) }
{
    head_array(fields_of(m))
}

/// The first 16 bytes of what is held, or `None` where there are fewer.
pub fn head_in(held: &[u8]) -> Option<[u8; HEAD]>
    ensures head { MatchOption result (length held.now < 16) (λ head. head ≡ take 16 held.now) }
    // They are the head of the message at the front.
    ensures message { (m : Msg) (rest : List ℕ) → IsMsg m → held.now ≡ spelled m ++ rest
        → IsSomeAnd result (λ head. head ≡ take 16 (spelled m)) }
{
    if held.len() < HEAD {
        return None;
    }
    let mut head = [0u8; HEAD];
    head.copy_from_slice(&held[..HEAD]);
    Some(head)
}
