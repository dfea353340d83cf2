// The refusals of each call in 01's order, as a Result: the first test that holds is the error. No function has a precondition; the
// caller does refusal 1's test and passes its result. Each list is written out whole, with refusal 1 in it, so that it reads as 01's does,
// though some begin alike. Only a delivery's goes on from a drive's.
#![tactic(auto)]

mod close;
mod deliver;
mod early;
mod take;
mod write;

pub use close::close_verdict;
pub use deliver::{delivery_verdict, header_verdict};
pub use early::early_verdict;
pub use take::take_verdict;
pub use write::write_verdict;
