// Look for a caller that cannot be given a subslice: where in a lent store the next datagram is. The bytes there are those that `look`
// shows.
#![tactic(auto)]

ghost use Rattle.std.specs.Prelude.{◌≡◌};
ghost use Rattle.rules_lent.specs.Broken.{lent};
ghost use Rattle.udx_c_part.specs.Place.{header_part, packet_part, shown_part, looked_part};

use constants::{HELD_WORDS, QUEUE_WORDS, SENT_WORDS, UDX_HEADER_SIZE};
use records::{Stream, Totals};
use records_places::{header_at, stored_at};
use rules_lent::broken;
use take_next::{Shown, next_shown};

// The lent stores that have datagrams to take.
#[derive(Clone, Copy)]
pub enum Store {
    Outgoing,
    Headers,
}

// A part of a lent store.
#[derive(Clone, Copy)]
pub struct Part {
    pub store: Store,
    pub start: usize,
    pub length: usize,
}

// The state packet at a place of the header store.
fn header_part(place: u32) -> Part
    ensures { result ≡ header_part place }
{
    Part {
        store: Store::Headers,
        start: header_at(place),
        length: UDX_HEADER_SIZE,
    }
}

// The first bytes of packet n's slot.
fn packet_part(n: u32, size: u32) -> Part
    ensures { result ≡ packet_part n size }
{
    Part {
        store: Store::Outgoing,
        start: stored_at(n),
        length: size as usize,
    }
}

// The part of a store where the datagram shown is.
fn shown_part(x: Shown) -> Part
    ensures { result ≡ shown_part x }
{
    match x {
        Shown::State(place) => header_part(place),
        Shown::Stored { number, length } => packet_part(number, length),
    }
}

// "a part of the outgoing store or of the header store, an empty part when nothing is left to take and also in place of refusal 1"; none is
// the empty part that C gets.
pub fn look_place(
    s: Stream,
    t: Totals,
    sent: &[u64; SENT_WORDS],
    held: &[u64; HELD_WORDS],
    queue: &[u64; QUEUE_WORDS],
    outgoing: &[u8],
    incoming: &[u8],
    headers: &[u8],
) -> Option<Part>
    ensures { result ≡ looked_part s t
        (lent sent.now held.now queue.now outgoing.now
        incoming.now headers.now) }
{
    if broken(s, t, sent, held, queue, outgoing, incoming, headers) {
        return None;
    }
    next_shown(s.queue, s.sender, sent, queue).map(shown_part)
}
