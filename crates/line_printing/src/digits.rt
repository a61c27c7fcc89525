//! Prints the digits of hexadecimal.

ghost use Rattle.std.specs.Prelude.{◌≡◌, ◌≤◌, ◌++◌, IfOk, OnOk};
ghost use Rattle.line_printing.specs.Printed.{hex_digits_of, hex_digit, hex_text};

use reg_base::Bytes;
use reg_journal::Request;
use reg_lists::OutOfMemory;
use std::alloc::Global;

/// The small digit.
fn hex_digit(value: u8) -> u8
    requires { value ≤ 15 }
    ensures { result ≡ hex_digit value }
{
    if value <= 9 { b'0' + value } else { 87 + value }
}

/// The bytes in hexadecimal, two small digits for each.
fn put_hex(out: &mut Bytes, body: &[u8]) -> Result<(), OutOfMemory>
    ensures { OnOk result (out.new ≡ out.old ++ hex_text body.now) }
{
    for byte in body {
        out.push(hex_digit(byte / 16))?;
        out.push(hex_digit(byte % 16))?;
    }
    Ok(())
}

/// The digits of hexadecimal in the line of a request.
pub fn digits_of(alloc: Global, request: &Request) -> Result<Bytes, OutOfMemory>
    ensures { IfOk result (λ digits. digits ≡ hex_digits_of request.now) }
{
    let mut digits = Bytes::new(alloc);
    if let Request::Element { body, .. } = request {
        put_hex(&mut digits, body.as_slice())?;
    }
    Ok(digits)
}
