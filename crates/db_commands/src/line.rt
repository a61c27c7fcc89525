//! Lines of text that the program writes.

ghost use Rattle.std.specs.Prelude.{◌≡◌, IfOk};
ghost use Rattle.reg_base.specs.Texts.{line_of};

use reg_base::Bytes;
use reg_lists::OutOfMemory;
use std::alloc::Global;

/// The text and a newline.
pub fn line_of(alloc: Global, text: &[u8]) -> Result<Bytes, OutOfMemory>
    ensures { IfOk result (λ line. line ≡ line_of text.now) }
{
    let mut line = Bytes::new(alloc);
    line.append(text)?;
    line.push(b'\n')?;
    Ok(line)
}
