// SACK blocks: the reader in the Rust's handle_incoming_sacks.
ghost use Rattle.std.specs.Prelude.{◌≡◌};
ghost use Rattle.packet.specs.Blocks.{next_block, blocks_from};

use crate::little_endian::read_u32_le;

// Numbers from start to below end.
#[derive(Clone, Copy, PartialEq, Eq)]
pub struct Block {
    pub start: u32,
    pub end: u32,
}

// The block at a place in a payload, if there is one; the next one is 8 bytes on. Compares with a difference, because the sum could wrap.
#[tactic(auto, using(crate::proofs::Blocks::next_range, crate::proofs::Blocks::next_end))]
pub fn block_at(payload: &[u8], at: usize) -> Option<Block>
    ensures { result ≡ next_block (blocks_from payload.now at) }
{
    if payload.len().saturating_sub(8) <= at {
        return None;
    }
    Some(Block {
        start: read_u32_le(payload, at),
        end: read_u32_le(payload, at + 4),
    })
}
