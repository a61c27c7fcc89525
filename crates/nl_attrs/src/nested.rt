//! Writes nested attributes straight into the buffer that holds them.

ghost use Rattle.std.specs.Prelude.{◌≡◌, ◌+◌, ◌<◌, ◌≤◌, ◌++◌, ℕ, List, length, take, drop, IfOk, IfErr, OnOk, OnErr};
ghost use Rattle.nl_attrs.specs.Attributes.{attr_bytes};
ghost use Rattle.nl_attrs.specs.Endian.{le16};
ghost use Rattle.nl_attrs.specs.Nesting.{begun_bytes, nested_with, FitsNested, IsNestedFault};

use crate::attr::{HEADER, MOST_PAYLOAD, NESTED};
use crate::attr_writer::put_padding;
use crate::fault::EncodeFault;
use crate::numbers::put_u16;
use reg_base::Bytes;
use reg_lists::OutOfMemory;
use std::marker::Model;

/// A nested attribute that is begun in a buffer and not ended. Contracts see where it begins.
#[derive(Debug, Drop)]
pub struct Nested {
    start: usize,
}

impl Model for Nested {
    ghost use Rattle.std.specs.Prelude.{ℕ};

    ghost Value = { ℕ };

    ghost view = { λ n. n.start };
}

/// Begins a nested attribute behind what the buffer holds. What is written next is its payload, up
/// to `end_nested`. The kind is below 16,384. After `OutOfMemory` a part of its header may stand
/// there.
pub fn begin_nested(out: &mut Bytes, kind: u16) -> Result<Nested, OutOfMemory>
    requires kind { kind < 16384 }
    ensures start { IfOk result (λ nested. nested ≡ length out.old) }
    ensures begun { OnOk result (out.new ≡ out.old ++ begun_bytes kind) }
    ensures inside { IfOk result (λ nested. nested + 4 ≤ length out.new) }
{
    let start = out.len();
    put_u16(out, 0)?;
    put_u16(out, kind + NESTED)?;
    Ok(Nested { start })
}

/// Writes a number over the two bytes from a place on.
fn set_u16(bytes: &mut [u8], place: usize, number: u16)
    requires { place + 2 ≤ length bytes.old }
    ensures { bytes.new ≡ take place bytes.old ++ (le16 number ++ drop (place + 2) bytes.old) }
{
    bytes[place..place + 2].copy_from_slice(&number.to_le_bytes());
}

/// Ends the nested attribute, whose payload is what was written since it began.
/// `EncodeFault::Overlong` names the length of a payload above 65,531 bytes. A fault changes
/// nothing.
pub fn end_nested(out: &mut Bytes, nested: Nested) -> Result<(), EncodeFault>
    requires begun { nested + 4 ≤ length out.old }
    ensures ended { (before payload : List ℕ) (kind : ℕ) → nested ≡ length before
        → out.old ≡ before ++ (begun_bytes kind ++ payload)
        → OnOk result (out.new ≡ before ++ attr_bytes (nested_with kind payload)) }
    ensures short { OnOk result (FitsNested out.old nested) }
    ensures longer { OnOk result (length out.old ≤ length out.new) }
    ensures fault { IfErr result (IsNestedFault out.old nested) }
    ensures kept { OnErr result (out.new ≡ out.old) }
{
    let length = out.len() - nested.start - HEADER;
    if length > MOST_PAYLOAD {
        return Err(EncodeFault::Overlong(length as u64));
    }
    put_padding(out, length)?;
    set_u16(out.as_mut_slice(), nested.start, (HEADER + length) as u16);
    Ok(())
}
