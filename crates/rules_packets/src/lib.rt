// Refusal 1's rules of the stored and the held packets, each checked in one pass. specs/Packets.antt has the rules.
#![tactic(auto)]

mod receiver;
mod sender;

pub use receiver::ok_receiver;
pub use sender::ok_sender;
