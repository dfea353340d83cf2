// Where a packet's bytes are in the lent stores: its slot by its number, and the first byte of a slot or of a state packet's place.
#![tactic(auto)]

ghost use Rattle.std.specs.Prelude.{◌≡◌, ◌*◌, ◌%◌, ◌<◌};

use constants::{HEADER_PIECE, INCOMING_SLOT, OUTGOING_SLOT, STORE_SLOTS};

// "slot = number mod 32", in either store.
pub fn slot(n: u32) -> usize
    ensures { (result ≡ n % 32) × (result < 32) }
{
    (n % STORE_SLOTS) as usize
}

// The places in the three stores are a line each, over the store's own size: one function of the size would be no plainer.

// The first byte of packet n in the outgoing store: "32 slots of 1,400 bytes".
pub fn stored_at(n: u32) -> usize
    ensures { result ≡ n % 32 * 1_400 }
{
    slot(n) * OUTGOING_SLOT
}

// The first byte of packet n in the incoming store: "32 slots of 1,380 bytes".
pub fn held_at(n: u32) -> usize
    ensures { result ≡ n % 32 * 1_380 }
{
    slot(n) * INCOMING_SLOT
}

// The first byte of a state packet in the header store: "64 queued state packets of 20 bytes".
pub fn header_at(place: u32) -> usize
    ensures { result ≡ place * 20 }
{
    place as usize * HEADER_PIECE
}
