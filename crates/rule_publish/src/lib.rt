//! Published tables: a writer puts values on a board, one after another, and readers look at the latest and never wait.
//! The value is of any type that has a number and a name, and what is proved here holds for all of them.
#![tactic(auto)]

mod board;
mod list;
mod look;
mod note;
mod numbered;
mod open;
mod pen;
mod plain;
mod post;
mod rule;
mod seat;
mod shared;
mod sheet;
mod showing;
mod teller;
mod telling;

pub use board::Board;
pub use list::LookerList;
pub use look::{Look, Looker};
pub use note::Note;
pub use numbered::Numbered;
pub use open::SwapBoard;
pub use plain::PlainBoard;
pub use reg_lists::OutOfMemory;
pub use teller::Teller;
