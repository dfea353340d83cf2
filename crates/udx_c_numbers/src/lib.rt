// The records and the answers of a call as plain numbers for C, and back, by From and TryFrom impls. No function here has a precondition.
#![tactic(auto)]

mod ending;
mod flatten;
mod streams;
mod structs;

pub use ending::{outcome_byte, refusal_byte};
pub use flatten::broken_step;
pub use streams::stream_of;
pub use structs::{
    FlatClocks, FlatEnding, FlatIds, FlatQueue, FlatReceiver, FlatSender, FlatStep, FlatStream,
    FlatTiming, FlatTotals,
};
