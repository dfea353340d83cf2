// The rules of the queue. In the pass `&` and `|` join the tests that are faster without a branch for each.
ghost use Rattle.std.specs.Prelude.{◌≡◌, ◌&&◌, leb, ltb, ◌+◌, ◌≤◌, drop, take, length};
ghost use Rattle.rules_queue.specs.Entries.{places_ok, ok_queue};
ghost use Rattle.rules_queue.specs.Passes.{sized, queued_ok, EntriesPassed};

use constants::{QUEUE_WORDS, SENT_WORDS, STATE_PACKETS, STORE_SLOTS, UDX_MTU};
use records::{Entry, Queue, QueuedPacket, Sender};

const SLOTS: usize = STORE_SLOTS as usize;

// What the pass over the entries finds: whether each keeps its rules, whether the packets' numbers are distinct and from remote acked to
// below seq, and how many state packets there are. Flags, and no Option: the pass goes on where an entry breaks a rule.
#[derive(Clone, Copy)]
struct QueuePass {
    good: bool,
    fresh: bool,
    states: u32,
}

// "lengths are 21 to 1,400 .. queued"
fn sized(size: u32) -> bool
    ensures { result ≡ sized size }
{
    21 <= size && size <= UDX_MTU
}

// A queued packet; `near`: its number is from remote acked to below seq.
fn queued_ok(near: bool, x: QueuedPacket, sent: &[u64; SENT_WORDS]) -> bool
    ensures { result ≡ queued_ok near sent.now x }
{
    let p = records::get_sent(sent, x.number);
    // Not find_sent: no branch here.
    let here = records::is_stored(p, x.number);
    let stored = near & here;
    // "a queued length is its packet's while that is stored"
    let same = !stored | (x.length == p.length);
    let fits = sized(x.length);
    fits & same
}

// The fast path: a stored packet with the entry's length, as most are. `same`: the word in its slot has its number and length.
fn plain(acked: u32, seq: u32, x: QueuedPacket, same: bool) -> bool
    ensures { result ≡ (leb acked x.number && (ltb x.number seq && (same && sized x.length))) }
{
    let fits = sized(x.length);
    acked <= x.number && x.number < seq && same && fits
}

// Checks the entries in the words from first to below end. One mark per slot records whether a number was seen before. Of the sender the
// pass reads only two numbers, and so it is not given more.
fn entries(
    first: usize,
    end: usize,
    acked: u32,
    seq: u32,
    queue: &[u64; QUEUE_WORDS],
    sent: &[u64; SENT_WORDS],
) -> QueuePass
    requires { (end ≤ 128) × (end ≤ length queue.now) × (seq ≤ acked + 32) }
    ensures { EntriesPassed acked seq sent.now (drop first (take end queue.now)) result.good
        result.fresh result.states }
{
    let mut marks = [false; SLOTS];
    let mut good = true;
    let mut fresh = true;
    let mut states: u32 = 0;
    // By index: a slice would be of words, whose bits only records_words knows.
    for i in first..end {
        match records::get_entry(queue, i) {
            Entry::State => states += 1,
            Entry::Packet(x) => {
                let same = records::same_packet(queue, i, sent);
                let slot = records::slot(x.number);
                let marked = marks[slot];
                let plain = plain(acked, seq, x, same);
                let done = plain & !marked;
                marks[slot] = true;
                if !done {
                    let near = acked <= x.number && x.number < seq;
                    good &= queued_ok(near, x, sent);
                    fresh &= !marked & near;
                }
            }
        }
    }
    QueuePass {
        good,
        fresh,
        states,
    }
}

// The state packets fit the header store, and their two counts match the entries.
fn places_ok(q: Queue, states: u32) -> bool
    ensures { result ≡ places_ok q states }
{
    let counted = q.states as u64 == q.gone as u64 + states as u64;
    q.states <= STATE_PACKETS && counted && (q.left != 0 || q.gone == 0)
}

pub fn ok_queue(q: Queue, s: Sender, queue: &[u64; QUEUE_WORDS], sent: &[u64; SENT_WORDS]) -> bool
    requires { s.seq ≤ s.remote_acked + 32 }
    ensures { result ≡ ok_queue q s queue.now sent.now }
{
    // The entries fit the words.
    if q.count as usize > QUEUE_WORDS || q.left > q.count {
        return false;
    }
    // With none left to take, the queue is all of them, else the last `left`.
    let rest = q.left == 0;
    let many = if rest { q.count } else { q.left };
    let first = (q.count - many) as usize;
    let found = entries(first, q.count as usize, s.remote_acked, s.seq, queue, sent);
    // "If none, the queue has distinct packet numbers from remote acked to below seq and at most 63 state packets"
    let at_rest = found.fresh && found.states <= 63;
    // "else at most 64 entries of each kind"
    let packets = many.saturating_sub(found.states);
    let to_take = found.states <= STATE_PACKETS && packets <= 64;
    let kinds = if rest { at_rest } else { to_take };
    let places = places_ok(q, found.states);
    found.good && kinds && places
}
