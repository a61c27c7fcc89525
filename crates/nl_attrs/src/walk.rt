//! Walks over attributes where they stand.

ghost use Rattle.std.specs.Prelude.{◌≡◌, ◌++◌, ℕ, List, [], IfOk, IfErr, IfSome, IfNone, OnErr};
ghost use Rattle.std.specs.Bool.{MatchBool};
ghost use Rattle.nl_attrs.specs.Attributes.{IsAttr, IsBroken, is_zero, attr_in, attr_bytes};
ghost use Rattle.nl_attrs.specs.Walks.{StepsOver, IsBreachAt, HasWalked, WalksOn, walk_from};
ghost use Rattle.nl_attrs.specs.inner.Reading.{BeginsAttr};
ghost use Rattle.nl_attrs.specs.declared.attr.Attr.{Attr};

use crate::attr::{AttrRef, HEADER, NESTED, RESERVED, aligned};
use crate::fault::Breach;
use crate::numbers::u16_at;
use std::marker::Model;

/// Whether all bytes are zero.
fn is_zero(bytes: &[u8]) -> bool
    ensures { result ≡ is_zero bytes.now }
{
    bytes.iter().all(|byte| *byte == 0)
}

/// Whether an attribute stands at the front of the bytes.
fn begins_attr(bytes: &[u8]) -> bool
    ensures { MatchBool result (BeginsAttr bytes.now) (IsBroken bytes.now) }
{
    if bytes.len() < HEADER {
        return false;
    }
    let length = u16_at(bytes, 0) as usize;
    let end = aligned(length);
    if length < HEADER || bytes.len() < end || u16_at(bytes, 2) / RESERVED % 2 == 1 {
        return false;
    }
    is_zero(&bytes[length..end])
}

/// The attribute at the front, and what stands behind it.
fn attr_at(bytes: &[u8]) -> (AttrRef<'_>, &[u8])
    requires { BeginsAttr bytes.now }
    ensures attr { IsAttr (attr_in result.0) }
    ensures parts { bytes.now ≡ attr_bytes (attr_in result.0) ++ result.1.now }
{
    let length = u16_at(bytes, 0) as usize;
    let field = u16_at(bytes, 2);
    let attr = AttrRef {
        kind: field % RESERVED,
        nested: field >= NESTED,
        payload: &bytes[HEADER..length],
    };
    (attr, &bytes[aligned(length)..])
}

/// A walk over the attributes of a payload, which copies nothing.
#[derive(Debug, Drop)]
pub struct Walk<'a> {
    rest: &'a [u8],
    // How many bytes the whole payload has.
    total: usize,
}

impl<'a> Model for Walk<'a> {
    ghost use Rattle.std.specs.Prelude.{◌-◌, ◌≤◌, length};
    ghost use Rattle.nl_attrs.specs.Walks.{Walking};

    ghost Value = { Walking };

    ghost view = { λ w. record { left = w.rest.now; place = w.total - length w.rest.now } };

    ghost invariant = { λ w. length w.rest.now ≤ w.total };
}

impl<'a> Walk<'a> {
    /// A walk that stands before the first attribute.
    pub fn new(payload: &'a [u8]) -> Walk<'a>
        ensures fresh { result ≡ walk_from payload.now }
        ensures walk { HasWalked result payload.now [] }
    {
        Walk {
            rest: payload,
            total: payload.len(),
        }
    }

    /// The next attribute, or `None` behind the last one. The `Breach` is the first bytes that are
    /// no attribute; it comes ever after.
    pub fn next(&mut self) -> Result<Option<AttrRef<'a>>, Breach>
        ensures attr { IfOk result (λ found. IfSome found (λ a. StepsOver self.old self.new (attr_in a))) }
        ensures end { IfOk result (λ found. IfNone found (self.old.left ≡ [])) }
        ensures stays { IfOk result (λ found. IfNone found (self.new ≡ self.old)) }
        ensures breach { IfErr result (IsBreachAt self.old) }
        ensures again { OnErr result (self.new ≡ self.old) }
        // It is the next attribute of the payload, or those given before are all.
        ensures walk { (payload : List ℕ) (given : List Attr) →
            HasWalked self.old payload given → WalksOn self.new payload given result }
    {
        if self.rest.is_empty() {
            return Ok(None);
        }
        if !begins_attr(self.rest) {
            return Err(Breach {
                place: (self.total - self.rest.len()) as u64,
            });
        }
        let (attr, after) = attr_at(self.rest);
        self.rest = after;
        Ok(Some(attr))
    }
}
