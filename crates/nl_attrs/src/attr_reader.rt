//! Reads attributes.

ghost use Rattle.std.specs.Prelude.{◌≡◌, List, All, IfOk, IfErr};
ghost use Rattle.nl_attrs.specs.Attributes.{IsAttr, attr_in, attrs_bytes, IsAttrsFault, GivesAttrs};
ghost use Rattle.nl_attrs.specs.declared.attr.Attr.{Attr};

use crate::attr::{Attr, AttrRef};
use crate::fault::AttrsFault;
use crate::lists::AttrList;
use crate::walk::Walk;
use reg_base::Bytes;
use reg_lists::OutOfMemory;
use std::alloc::Global;

impl<'a> AttrRef<'a> {
    /// The attribute with a payload of its own.
    pub fn copied(&self, alloc: Global) -> Result<Attr, OutOfMemory>
        ensures same { IfOk result (λ a. a ≡ attr_in self.now) }
    {
        let mut payload = Bytes::new(alloc);
        payload.append(self.payload)?;
        Ok(Attr {
            kind: self.kind,
            nested: self.nested,
            payload,
        })
    }
}

/// The attributes of a payload, which is nothing but attributes. `AttrsFault::BadAttr` names the
/// place of the first bytes that are none.
pub fn attrs_of(alloc: Global, payload: &[u8]) -> Result<AttrList, AttrsFault>
    ensures list { IfOk result (λ list. payload.now ≡ attrs_bytes list) }
    ensures each { IfOk result (All IsAttr) }
    ensures fault { IfErr result (IsAttrsFault payload.now) }
    // It undoes `attrs_bytes`, unless memory runs out.
    ensures inverse { (attrs : List Attr) → All IsAttr attrs
        → payload.now ≡ attrs_bytes attrs → GivesAttrs result attrs }
{
    let mut list = AttrList::new(alloc);
    let mut walk = Walk::new(payload);
    'attrs: while let Some(attr) = walk.next()? {
        let attr = attr.copied(alloc)?;
        list.push(attr)?;
    }
    Ok(list)
}
