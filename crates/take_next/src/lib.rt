// Taking the entries of the next batch, one after another: their bytes, with the mark that the socket driver gives (to_transmit); and look,
// the next datagram. Words and stores are lent one by one: only the stored packets' words and the buffer are written.
#![tactic(auto)]

ghost use Rattle.std.specs.Prelude.{◌≡◌, ◌≤◌, length};
ghost use Rattle.records.specs.Seen.{QueueFormed};
ghost use Rattle.take_next.specs.Take.{
  TakeRules,
  CanTake,
  Takes,
  TakesQueue,
  segment_size,
  Sendable,
  HandsOut,
  Finds,
  ShowsNext,
};

use constants::{QUEUE_WORDS, SENT_WORDS};
use records::{Entry, Queue, Sender};
use rtt::Nanos;
use take_batch::{batch, head_length, left_entry};
use take_entry::{Progress, find_stored, transmit};

// the next batch

// Takes the first k entries left to take, one after another: after i of them p.at is past their bytes, and each packet has a mark for each
// of its entries. The rest of the buffer is unchanged.
fn to_transmit(
    q: Queue,
    s: Sender,
    k: u32,
    drive: Nanos,
    sent: &mut [u64; SENT_WORDS],
    queue: &[u64; QUEUE_WORDS],
    outgoing: &[u8],
    headers: &[u8],
    buf: &mut [u8],
) -> Progress
    requires { CanTake q s k drive.0 sent.old queue.now outgoing.now headers.now buf.old }
    ensures { Takes q s k drive.0 sent.old queue.now outgoing.now
        headers.now buf.old result sent.new buf.new }
{
    let mut p = Progress {
        at: 0,
        place: q.gone,
    };
    // By index, here and in `next_shown`: a slice would be of words, whose bits only records_words knows.
    for i in 0..k {
        let x = left_entry(q, queue, i);
        p = transmit(s, x, p, drive, sent, outgoing, headers, buf);
    }
    p
}

// The queue without its first k entries; `place` is that of the next state packet. After the last entry it is empty, and words and places
// are used from the start again.
#[tactic(auto, using(crate::proofs::TakeModel::places_left, records::proofs::SeenQueue::words_rest))]
fn taken_queue(q: Queue, k: u32, place: u32) -> Queue
    requires { k ≤ q.left }
    ensures { TakesQueue q k place result }
{
    let left = q.left - k;
    if left == 0 {
        return Queue::default();
    }
    Queue {
        left,
        gone: place,
        ..q
    }
}

// A batch handed out.
#[derive(Clone, Copy)]
pub struct Handed {
    // The queue without it.
    pub queue: Queue,
    // The number of its bytes, which are at the front of the buffer.
    pub count: usize,
    // Its segment size, none if it has one entry.
    pub segment: Option<usize>,
}

// "with segment size unless it has one entry"
fn segment(entries: u32, size: u32) -> Option<usize>
    ensures { result ≡ segment_size entries size }
{
    if entries == 1 {
        None
    } else {
        Some(size as usize)
    }
}

// The next batch (poll_transmit): its bytes with their marks, its segment size, and the queue without it.
pub fn next_batch(
    q: Queue,
    s: Sender,
    segments: u8,
    drive: Nanos,
    sent: &mut [u64; SENT_WORDS],
    queue: &[u64; QUEUE_WORDS],
    outgoing: &[u8],
    headers: &[u8],
    buf: &mut [u8],
) -> Handed
    requires { Sendable q s segments drive.0 sent.old queue.now outgoing.now headers.now buf.old }
    ensures { HandsOut q s segments drive.0 sent.old queue.now outgoing.now
        headers.now buf.old result sent.new buf.new }
{
    let k = batch(q, segments, queue);
    let head = head_length(q, queue);
    let p = to_transmit(q, s, k, drive, sent, queue, outgoing, headers, buf);
    Handed {
        queue: taken_queue(q, k, p.place),
        count: p.at,
        segment: segment(k, head),
    }
}

// look

// Where the bytes of a datagram are.
#[derive(Clone, Copy)]
pub enum Shown {
    // A state packet's, at this place of the header store.
    State(u32),
    // A stored packet's: the first `length` bytes of its slot of the outgoing store. No `QueuedPacket`: the length is that of the packet as it is
    // stored.
    Stored { number: u32, length: u32 },
}

// The first entry left to take whose packet is there. A state packet always is, so the search passes none, and finds the first one queued,
// whose place is `gone`.
#[tactic(auto, using(crate::proofs::LookNext::searching))]
pub fn next_shown(
    q: Queue,
    s: Sender,
    sent: &[u64; SENT_WORDS],
    queue: &[u64; QUEUE_WORDS],
) -> Option<Shown>
    requires { QueueFormed q queue.now }
    ensures { Finds q s sent.now queue.now result }
{
    for n in 0..q.left {
        let Entry::Packet(x) = left_entry(q, queue, n) else {
            return Some(Shown::State(q.gone));
        };
        if let Some(p) = find_stored(s, sent, x.number) {
            return Some(Shown::Stored {
                number: x.number,
                length: p.length,
            });
        }
    }
    None
}

// The next datagram, as a part of the store that holds it; "an empty part when nothing is left to take".
#[tactic(auto, using(crate::proofs::LookNext::showing))]
pub fn look_next<'a>(
    q: Queue,
    s: Sender,
    sent: &[u64; SENT_WORDS],
    queue: &[u64; QUEUE_WORDS],
    outgoing: &'a [u8],
    headers: &'a [u8],
) -> &'a [u8]
    requires { TakeRules q s sent.now queue.now outgoing.now headers.now }
    ensures { ShowsNext q s sent.now queue.now outgoing.now
        headers.now result.now }
{
    match next_shown(q, s, sent, queue) {
        None => &outgoing[0..0],
        Some(Shown::State(place)) => records_stores::header_bytes(headers, place),
        Some(Shown::Stored { number, length }) => {
            records_stores::packet_bytes(outgoing, number, length)
        }
    }
}
