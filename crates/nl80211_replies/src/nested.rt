//! Attributes that hold others.

ghost use Rattle.std.specs.Prelude.{◌≡◌, ◌++◌, ◌∷◌, [], All, OnOk};
ghost use Rattle.nl_attrs.specs.Attributes.{attrs_bytes};
ghost use Rattle.nl_attrs.specs.Nesting.{nested_with};
ghost use Rattle.nl80211_replies.specs.inner.Fitting.{FitsField};

use nl_attrs::{Attr, AttrList, EncodeFault, attrs_bytes};
use reg_lists::OutOfMemory;

/// Appends an attribute of this kind that holds the others, which fit their fields.
pub(crate) fn push_nested(out: &mut AttrList, kind: u16, held: &AttrList) -> Result<(), OutOfMemory>
    requires { All FitsField held.now }
    ensures { OnOk result (out.new ≡ out.old ++ nested_with kind (attrs_bytes held.now) ∷ []) }
{
    let payload = match attrs_bytes(out.allocator(), held) {
        Ok(bytes) => bytes,
        Err(EncodeFault::OutOfMemory) => return Err(OutOfMemory),
        Err(EncodeFault::Overlong(_)) => unreachable!(),
    };
    out.push(Attr {
        kind,
        nested: true,
        payload,
    })
}
