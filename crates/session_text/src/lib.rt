// The lines of a session, put piece by piece into a buffer. Each function puts its piece at a place and returns the place past it: there is
// no heap, and each contract says exactly which bytes are written where.
#![tactic(auto)]

mod lines;
mod pieces;

pub use lines::{LINE, Name, put_bytes_line, put_line, put_script_line};
pub use pieces::{put_answer, put_bytes, put_decimal, put_end, put_outcome, put_space, put_word};
