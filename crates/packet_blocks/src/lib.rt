// The block reader in the Rust's handle_incoming_sacks: it keeps its payload and its place together. `next_at` does the work on a plain
// slice and a number, and what holds a reader is thin over it.
//
// There are two methods `next`. The one of Iterator takes `&mut self`, moves the reader past the block and returns the block alone: callers
// loop over a reader (deliver_acks). The reader's own takes `self` by value and returns the block with the place after it; `reader.next()`
// means this one. The iterator reads by `read_from`, so a loop runs the functions of which the theorems on the block reader (crates promise
// and promise_sentences) speak.
#![tactic(auto)]

ghost use Rattle.std.specs.Prelude.{◌≡◌};
ghost use Rattle.std.specs.Iterator.{item_count};
ghost use Rattle.packet_blocks.specs.Reader.{read_at, ReadsOn, blocks_left};

use packet::Block;

// A block, if there is one, and the place after it.
#[derive(Clone, Copy)]
pub struct Next {
    pub block: Option<Block>,
    pub at: usize,
}

#[derive(Clone, Copy)]
pub struct BlockReader<'a> {
    pub payload: &'a [u8],
    pub at: usize,
}

// The block at a place and the place after it, 8 bytes on; or the end and the same place.
pub fn next_at(payload: &[u8], at: usize) -> Next
    ensures { result ≡ read_at payload.now at }
{
    match packet::block_at(payload, at) {
        Some(block) => Next {
            block: Some(block),
            at: at + 8,
        },
        None => Next { block: None, at },
    }
}

impl<'a> BlockReader<'a> {
    pub fn new(payload: &'a [u8]) -> BlockReader<'a>
        ensures { (result.payload ≡ payload.entry) × (result.at ≡ 0) }
    {
        BlockReader { payload, at: 0 }
    }

    // The reader at another place.
    pub fn moved(self, at: usize) -> BlockReader<'a>
        ensures { (result.payload ≡ self.entry.payload) × (result.at ≡ at) }
    {
        BlockReader { at, ..self }
    }

    // The block at the reader's place, and the place after it; the reader stays where it is.
    pub fn next(self) -> Next
        ensures { result ≡ read_at self.entry.payload.now self.entry.at }
    {
        next_at(self.payload, self.at)
    }
}

// The blocks in turn, as a loop takes them.
impl<'a> Iterator for BlockReader<'a> {
    type Item = Block;

    ghost next_gives = { ReadsOn };

    ghost remaining = { item_count blocks_left };

    fn next(&mut self) -> Option<Block> {
        let next = read_from(self.payload, self.at);
        self.at = next.at;
        next.block
    }
}

// What a reader of this payload reads at this place.
pub fn read_from(payload: &[u8], at: usize) -> Next
    ensures { result ≡ read_at payload.now at }
{
    BlockReader::new(payload).moved(at).next()
}
