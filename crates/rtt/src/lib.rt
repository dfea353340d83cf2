// Nanoseconds, the round-trip estimate (RFC 6298, 2.2 to 2.4) and the congestion window. Knows nothing about packets.
#![tactic(auto)]

mod cwnd;
mod estimate;
mod nanos;

pub use cwnd::{grow, halve};
pub use estimate::Rtt;
pub use nanos::Nanos;
