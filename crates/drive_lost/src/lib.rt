// Driving: what a due timer does to the stored packets (poll_check_timeouts). What drive's loops share is in specs/Packets.antt.
#![tactic(auto)]

mod timeouts;

pub use timeouts::{Passed, time_out_packets};
