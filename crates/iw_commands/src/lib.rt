//! Lines of scripts: which request a line asks, and the texts of replies.
#![tactic(auto)]

mod cutter;
mod dump_printer;
mod fault;
mod pieces_printer;
mod refusal_printer;
mod reply_printer;
mod script;

pub use cutter::{Cut, LineCutter};
pub use fault::{fault_text, put_fault};
pub use line_forms::{LineFault, ReadLineFault, one_meaning, read_line};
pub use line_printing::{line_of, printed_lines_read_back};
pub use reply_printer::{put_reply, reply_text};
pub use script::Lines;
