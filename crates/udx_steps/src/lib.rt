// What a call returns: the step of an accepted call, and that of a refused one. Steps are only put together here, so no function has a
// precondition.
#![tactic(auto)]

mod drive;
mod read;
mod step;
mod take;
mod write;

pub use drive::done_step;
pub use read::read_step;
pub use step::{Step, ready_step, refused};
pub use take::{nothing, taken_step};
pub use write::{outbox, written};
