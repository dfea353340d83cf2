// A drive that is neither refused nor done: the largest ack is settled, a due timer considers the packets lost, and waiting packets are
// queued again (poll_drive).
#![tactic(auto)]

mod poll;

pub use poll::{clocked, poll_drive};
