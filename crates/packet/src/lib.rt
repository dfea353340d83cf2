// Headers and SACK blocks as bytes (src/packet.rs, and the block reader in handle_incoming_sacks). Knows nothing about streams.
#![tactic(auto)]

mod header;
mod little_endian;
mod sack;

pub use header::Header;
pub use sack::{Block, block_at};
