// Packets and queue entries as words. This crate alone knows the bits; everything else works on `Sent`, `Held` and `Entry` by value,
// and finds a packet by its number.
//
//   sent[i]          number * 2^32 + length * 64 + transmits * 2 + waiting, of the packet in slot i of the outgoing store
//   sent[SLOTS + i]  its time sent + 1, or 0 for none
//   held[i]          number * 2^32 + (length + 1) * 2^16 + offset, of the packet in slot i of the incoming store
//   queue[i]         number * 2^32 + length * 64 of a packet; 20 * 64 + 1 is written for a state packet, and any word with its lowest
//                    bit set is read as one
//
// 0 means no packet, and no time sent: the words are lent by C, and their layout is fixed.
// Number and length occupy the same bits in a packet's word and in its queue entry, so one comparison checks both.
// A packet's slot is its number mod the number of slots. A word with another number, or with 0 in the length field, is not that packet.
#![tactic(auto)]

ghost use Rattle.std.specs.Prelude.{◌≡◌, ◌+◌, ◌*◌, ◌/◌, ◌%◌, ◌<◌, ◌≤◌, set, slice_index, slice_set};
ghost use Rattle.records_words.specs.Words.{
  sent_of,
  sent_in,
  sent_word,
  sent_time,
  is_stored,
  is_sized,
  held_of,
  held_word,
  is_held,
  is_short,
  entry_of,
  found_sent,
  found_held,
  entry_word,
  high,
  same_packet,
};

use constants::{HELD_WORDS, QUEUE_WORDS, SENT_WORDS, STORE_SLOTS, UDX_HEADER_SIZE};
use records_places::slot;
use rtt::Nanos;

const SLOTS: usize = STORE_SLOTS as usize;

// A packet of the outgoing store.
#[derive(Clone, Copy)]
pub struct Sent {
    pub number: u32,
    // Bytes, header included; 0 where there is no packet.
    pub length: u32,
    pub transmits: u32,
    // Considered lost, and not queued again yet. A flag: the packet is stored either way.
    pub waiting: bool,
    // The clock of the drive before it was last taken; None until it is first taken.
    pub sent_at: Option<Nanos>,
}

// A packet of the incoming store, as its slot has it: refusal 1's pass looks into empty slots too.
#[derive(Clone, Copy)]
pub struct Held {
    pub number: u32,
    // Its length + 1; 0 where there is no packet.
    pub past: u32,
    pub offset: u32,
}

// A packet's entry: its number, and its length when it was queued. The packet itself may have left.
#[derive(Clone, Copy)]
pub struct QueuedPacket {
    pub number: u32,
    // Bytes, header included.
    pub length: u32,
}

// A queue entry. A state packet is a bare header, which waits in the header store.
#[derive(Clone, Copy)]
pub enum Entry {
    State,
    Packet(QueuedPacket),
}

// The upper and the lower 32 bits of a word.
fn high(w: u64) -> u32
    ensures { result ≡ w / 4_294_967_296 }
{
    (w >> 32) as u32
}

fn low(w: u64) -> u32
    ensures { result ≡ w % 4_294_967_296 }
{
    (w & 0xffff_ffff) as u32
}

fn word(number: u32, rest: u32) -> u64
    ensures { result ≡ 4_294_967_296 * number + rest }
{
    ((number as u64) << 32) | rest as u64
}

// Stored packets, held packets and entries have their own functions, a line or two each over their own words: a generic one would need a
// trait for the three layouts, and be no plainer.

// stored packets

// A function and no From impl, here and below: an impl would be public, and this crate alone knows the bits.
#[tactic(auto, unfolding(crate::specs::Words::sent_of))]
fn sent_of(w: u64, time: u64) -> Sent
    ensures { result ≡ sent_of w time }
{
    let rest = low(w);
    Sent {
        number: high(w),
        length: rest / 64,
        transmits: rest / 2 % 32,
        waiting: rest % 2 == 1,
        sent_at: time.checked_sub(1).map(Nanos),
    }
}

// The contents of the slot of number n.
pub fn get_sent(sent: &[u64; SENT_WORDS], n: u32) -> Sent
    ensures { result ≡ sent_of (slice_index sent.now (n % 32)) (slice_index sent.now (32 + n % 32)) }
{
    let i = slot(n);
    sent_of(sent[i], sent[SLOTS + i])
}

// Whether p is packet n.
pub fn is_stored(p: Sent, n: u32) -> bool
    ensures { result ≡ is_stored p n }
{
    p.length != 0 && p.number == n
}

// Packet n, if its slot holds it.
pub fn find_sent(sent: &[u64; SENT_WORDS], n: u32) -> Option<Sent>
    ensures { result ≡ found_sent sent.now n }
{
    let p = get_sent(sent, n);
    if is_stored(p, n) { Some(p) } else { None }
}

// Whether the slot of number n holds packet n with a length from least to most.
#[tactic(auto, unfolding(crate::specs::Words::sent_of))]
pub fn is_sized(sent: &[u64; SENT_WORDS], n: u32, least: u32, most: u32) -> bool
    requires { (least ≤ most) × (most < 67_108_864) }
    ensures { result ≡ is_sized (sent_in sent.now (n % 32)) n least most }
{
    // Number and length, as one integer, are at most `most - least` above n and `least`.
    let from = 67_108_864 * (n as u64) + least as u64;
    let past = (sent[slot(n)] / 64).wrapping_sub(from);
    past <= (most - least) as u64
}

#[tactic(auto, unfolding(crate::specs::Words::sent_word))]
fn sent_word(p: Sent) -> u64
    ensures { result ≡ sent_word p }
{
    word(
        p.number,
        p.length % 65_536 * 64 + p.transmits % 32 * 2 + p.waiting as u32,
    )
}

#[tactic(auto, unfolding(crate::specs::Words::sent_time))]
fn sent_time(p: Sent) -> u64
    ensures { result ≡ sent_time p }
{
    p.sent_at.map_or(0, |t| t.0.wrapping_add(1))
}

// Puts a packet into the slot of its number.
pub fn put_sent(sent: &mut [u64; SENT_WORDS], p: Sent)
    ensures { sent.new ≡ set (slice_set sent.old (p.number % 32) (sent_word p))
        (32 + p.number % 32) (sent_time p) }
{
    let i = slot(p.number);
    sent[i] = sent_word(p);
    sent[SLOTS + i] = sent_time(p);
}

// Empties the slot of number n.
pub fn clear_sent(sent: &mut [u64; SENT_WORDS], n: u32)
    ensures { sent.new ≡ slice_set sent.old (n % 32) 0 }
{
    sent[slot(n)] = 0;
}

// held packets

#[tactic(auto, unfolding(crate::specs::Words::held_of))]
fn held_of(w: u64) -> Held
    ensures { result ≡ held_of w }
{
    let rest = low(w);
    Held {
        number: high(w),
        past: rest / 65_536,
        offset: rest % 65_536,
    }
}

pub fn get_held(held: &[u64; HELD_WORDS], n: u32) -> Held
    ensures { result ≡ held_of (slice_index held.now (n % 32)) }
{
    held_of(held[slot(n)])
}

pub fn is_held(p: Held, n: u32) -> bool
    ensures { result ≡ is_held p n }
{
    p.past != 0 && p.number == n
}

// Packet n, if its slot holds it.
pub fn find_held(held: &[u64; HELD_WORDS], n: u32) -> Option<Held>
    ensures { result ≡ found_held held.now n }
{
    let p = get_held(held, n);
    if is_held(p, n) { Some(p) } else { None }
}

// Whether the slot of number n holds packet n with at most `most` bytes.
#[tactic(auto, unfolding(crate::specs::Words::held_of))]
pub fn is_short(held: &[u64; HELD_WORDS], n: u32, most: u32) -> bool
    requires { most < 65_535 }
    ensures { result ≡ is_short (held_of (slice_index held.now (n % 32))) n most }
{
    // Number and length, as one integer, are at most `most` above those of an empty packet n.
    let from = 65_536 * (n as u64) + 1;
    let past = (held[slot(n)] / 65_536).wrapping_sub(from);
    past <= most as u64
}

#[tactic(auto, unfolding(crate::specs::Words::held_word))]
fn held_word(p: Held) -> u64
    ensures { result ≡ held_word p }
{
    word(p.number, p.past % 65_536 * 65_536 + p.offset % 65_536)
}

pub fn put_held(held: &mut [u64; HELD_WORDS], p: Held)
    ensures { held.new ≡ slice_set held.old (p.number % 32) (held_word p) }
{
    held[slot(p.number)] = held_word(p);
}

pub fn clear_held(held: &mut [u64; HELD_WORDS], n: u32)
    ensures { held.new ≡ slice_set held.old (n % 32) 0 }
{
    held[slot(n)] = 0;
}

// queue entries

#[tactic(auto, unfolding(crate::specs::Words::entry_of))]
fn entry_of(w: u64) -> Entry
    ensures { result ≡ entry_of w }
{
    let rest = low(w);
    if rest % 2 == 1 {
        return Entry::State;
    }
    Entry::Packet(QueuedPacket {
        number: high(w),
        length: rest / 64,
    })
}

// Entry i. The bound is the array's own: whether the queue has an entry there is the caller's to know.
pub fn get_entry(queue: &[u64; QUEUE_WORDS], i: usize) -> Entry
    requires { i < 128 }
    ensures { result ≡ entry_of (slice_index queue.now i) }
{
    entry_of(queue[i])
}

// Whether the word in the slot of entry i's number has that number and length.
#[tactic(auto, unfolding(crate::specs::Words::sent_of))]
pub fn same_packet(queue: &[u64; QUEUE_WORDS], i: usize, sent: &[u64; SENT_WORDS]) -> bool
    requires { i < 128 }
    ensures { result ≡ same_packet (sent_in sent.now (high (slice_index queue.now i) % 32))
        (slice_index queue.now i) }
{
    let w = queue[i];
    sent[slot(high(w))] / 64 == w / 64
}

#[tactic(auto, unfolding(crate::specs::Words::entry_word))]
fn entry_word(x: Entry) -> u64
    ensures { result ≡ entry_word x }
{
    match x {
        Entry::State => UDX_HEADER_SIZE as u64 * 64 + 1,
        Entry::Packet(p) => word(p.number, p.length % 65_536 * 64),
    }
}

pub fn put_entry(queue: &mut [u64; QUEUE_WORDS], i: usize, x: Entry)
    requires { i < 128 }
    ensures { queue.new ≡ slice_set queue.old i (entry_word x) }
{
    queue[i] = entry_word(x);
}
