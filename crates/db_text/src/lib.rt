//! Reads and prints rule texts (`db.txt` of wireless-regdb).
#![tactic(auto)]

mod laws;
mod number_printer;
mod print_fault;
mod printer;
mod rule_printer;
mod wmm_names;
mod wmm_printer;

pub use laws::printed_text_reads_back;
pub use print_fault::PrintFault;
pub use printer::print;
pub use rule_printer::{print_rule, put_flags};
pub use rule_text::{ParseFault, TextFault, one_answer, parse};
pub use text_lines::{RuleTextFault, TextKind, one_rule, parse_rule};
