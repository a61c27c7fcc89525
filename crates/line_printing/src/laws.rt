//! The law over all requests that lines can ask.

ghost use Rattle.std.specs.Prelude.{◌≡◌, Ok, Option, Result, Some};
ghost use Rattle.reg_journal.specs.Forms.{IsLineRequest};
ghost use Rattle.reg_journal.specs.Requests.{IsTyped};
ghost use Rattle.reg_journal.specs.declared.request.Request.{Request};
ghost use Rattle.line_forms.specs.Lines.{Says};
ghost use Rattle.line_forms.specs.declared.fault.LineFault.{LineFault};
ghost use Rattle.line_printing.specs.Printed.{line_text};

/// The printed line of each request that a line can ask says this request, and nothing else.
pub fn printed_lines_read_back()
    ensures reads { (q : Request) → IsTyped q → IsLineRequest q → Says (line_text q) (Ok (Some q)) }
    ensures only { (q : Request) (other : Result (Option Request) LineFault)
        → IsTyped q → IsLineRequest q → Says (line_text q) other → other ≡ Ok (Some q) }
{}
