// The entries left to take, and how many of them the next batch has (poll_transmit).
#![tactic(auto)]

ghost use Rattle.std.specs.Prelude.{◌≡◌, ◌<◌, ◌≤◌, get_or};
ghost use Rattle.records_words.specs.Words.{entry_of};
ghost use Rattle.records.specs.Seen.{entry_words};
ghost use Rattle.take_batch.specs.Batch.{entry_size, Batched, Heads};

use constants::{QUEUE_WORDS, UDX_HEADER_SIZE};
use records::{Entry, Queue};

// The size of an entry's datagram; a state packet is a bare header.
fn entry_size(x: Entry) -> u32
    ensures { result ≡ entry_size x }
{
    match x {
        Entry::State => UDX_HEADER_SIZE as u32,
        Entry::Packet(x) => x.length,
    }
}

// Entry i of those left to take, which are the last ones of the queue. Of the queue's layout (`QueueFormed`) the functions here
// require only two bounds.
#[tactic(auto, using(crate::proofs::LeftWords::left_word))]
pub fn left_entry(q: Queue, queue: &[u64; QUEUE_WORDS], i: u32) -> Entry
    requires { (i < q.left) × (q.left ≤ q.count) × (q.count ≤ 128) }
    ensures { result ≡ entry_of (get_or (entry_words q queue.now) i 0) }
{
    let first = q.count - q.left;
    records::get_entry(queue, (first + i) as usize)
}

// How many entries the next batch has: the run of entries of the first one's length, at most the ceiling and at most what is left.
#[tactic(auto, using(crate::proofs::SameSize::same_again, crate::proofs::SameSize::batched_all, crate::proofs::SameSize::batched_cut))]
pub fn batch(q: Queue, segments: u8, queue: &[u64; QUEUE_WORDS]) -> u32
    requires { (q.left ≤ q.count) × (q.count ≤ 128) × (1 ≤ q.left) }
    ensures { Batched q segments queue.now result }
{
    let most = (segments as u32).min(q.left);
    // Not head_length: it speaks of the model's entry, and this proof did not close with it.
    let size = entry_size(left_entry(q, queue, 0));
    // By index: a slice would be of words, whose bits only records_words knows.
    for k in 0..most {
        if entry_size(left_entry(q, queue, k)) != size {
            return k;
        }
    }
    most
}

// The length of the first entry left to take: the segment size of its batch.
#[tactic(auto, using(crate::proofs::SameSize::heads))]
pub fn head_length(q: Queue, queue: &[u64; QUEUE_WORDS]) -> u32
    requires { (q.left ≤ q.count) × (q.count ≤ 128) × (1 ≤ q.left) }
    ensures { Heads q queue.now result }
{
    entry_size(left_entry(q, queue, 0))
}
