// The session of 01: one command of a script at a time, on one of two ends. A command's line is put into a lent buffer, for a program to
// write or to compare.
#![tactic(auto)]

mod opening;
mod running;

pub use opening::open_ends;
pub use running::{Ends, Turn, run_one, stop};
pub use session_commands::{Acted, EndStores, SCRATCH, take_and_keep};
