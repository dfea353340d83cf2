// A datagram's DATA: it is held under its number until it is read, and ack moves past all that is held in order. The receiver's numbers
// are passed by value; the held packets are words of a lent array, their bytes are in the lent incoming store.
#![tactic(auto)]

ghost use Rattle.std.specs.Prelude.{◌≡◌, ◌+◌, ◌≤◌, ◌<◌, max};
ghost use Rattle.records.specs.Laid.{LaidReceiver};
ghost use Rattle.deliver_data.specs.Absorbing.{Accepted, Cleared, Inserted, Advanced, Absorbed};

use constants::HELD_WORDS;
use records::{Held, Receiver};

// Clears the words of the numbers from top to below n: once top is past them, a stale word would count as a packet.
fn clear_gap(held: &mut [u64; HELD_WORDS], top: u32, n: u32)
    ensures { Cleared held.old top n held.new }
{
    for m in top..n {
        records::clear_held(held, m);
    }
}

// Holds a payload under number n. A repeat replaces what was held under n, and is read from its start.
fn insert(
    r: Receiver,
    held: &mut [u64; HELD_WORDS],
    incoming: &mut [u8],
    n: u32,
    payload: &[u8],
) -> Receiver
    requires { Accepted r incoming.old n payload.now × (r.ack ≤ n) }
    ensures { Inserted r held.old incoming.old n payload.now result
        held.new incoming.new }
{
    let p = Held {
        number: n,
        past: payload.len() as u32 + 1,
        offset: 0,
    };
    clear_gap(held, r.top, n);
    records::put_held(held, p);
    records_stores::put_payload(incoming, n, payload);
    Receiver {
        top: r.top.max(n + 1),
        ..r
    }
}

// Moves ack past all that is held in order: to the first number not held, at most to top. An ack past top stays.
fn in_order(r: Receiver, held: &[u64; HELD_WORDS]) -> Receiver
    requires { LaidReceiver r × (r.read_cursor ≤ r.ack) }
    ensures { Advanced r held.now result }
{
    for n in r.ack..r.top {
        if records::find_held(held, n).is_none() {
            return Receiver { ack: n, ..r };
        }
    }
    Receiver {
        ack: r.ack.max(r.top),
        ..r
    }
}

// DATA numbered n (in handle_incoming). A number below ack was delivered before and may already be read, so it is not held again.
pub fn absorb(
    r: Receiver,
    held: &mut [u64; HELD_WORDS],
    incoming: &mut [u8],
    n: u32,
    payload: &[u8],
) -> Receiver
    requires { Accepted r incoming.old n payload.now }
    ensures { Absorbed r held.old incoming.old n payload.now result
        held.new incoming.new }
{
    if n < r.ack {
        return in_order(r, held);
    }
    let s = insert(r, held, incoming, n, payload);
    in_order(s, held)
}
