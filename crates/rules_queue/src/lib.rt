// Refusal 1's rules of the queue, in one pass over its entries. specs/Entries.antt has the rules.
#![tactic(auto)]

mod queue;

pub use queue::ok_queue;
