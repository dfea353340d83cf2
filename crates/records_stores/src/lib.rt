// The three lent byte stores: a packet's bytes are put and found by its number, a state packet's by its place. Callers know no offsets.
// A store is a plain slice, since callers lend any and refusal 1 tests its length; a type for that length would ask more of them. The three
// have functions of their own, a line or two each: a generic one would be no plainer.
#![tactic(auto)]

ghost use Rattle.std.specs.Prelude.{◌≡◌, ◌++◌, ◌+◌, ◌-◌, ◌*◌, ◌%◌, ◌≤◌, ◌<◌, length, take, drop};
ghost use Rattle.packet.specs.Header.{header_bytes};
ghost use Rattle.records.specs.Put.{put};

use constants::UDX_HEADER_SIZE;
use packet::Header;
use records_places::{header_at, held_at, stored_at};

// Copies all of src into dst from `at` on; the rest of dst stays.
#[tactic(auto, unfolding(records::specs::Put::put))]
pub fn put_at(dst: &mut [u8], at: usize, src: &[u8])
    requires { at + length src.now ≤ length dst.old }
    ensures { dst.new ≡ put dst.old at src.now }
{
    dst[at..at + src.len()].copy_from_slice(src);
}

// Puts packet h.seq into its slot of the outgoing store (Packet::new).
#[tactic(auto, using(records::proofs::Put::put_put, packet::proofs::HeaderLaws::header_length))]
pub fn put_packet(outgoing: &mut [u8], h: Header, payload: &[u8])
    requires { (length outgoing.old ≡ 44_800) × (length payload.now ≤ 1_380) }
    ensures { outgoing.new ≡ put outgoing.old (h.seq % 32 * 1_400)
        (header_bytes h ++ payload.now) }
{
    let at = stored_at(h.seq);
    put_at(outgoing, at, &h.to_bytes());
    put_at(outgoing, at + UDX_HEADER_SIZE, payload);
}

// Puts a payload into the slot of number n of the incoming store.
pub fn put_payload(incoming: &mut [u8], n: u32, payload: &[u8])
    requires { (length incoming.old ≡ 44_160) × (length payload.now ≤ 1_380) }
    ensures { incoming.new ≡ put incoming.old (n % 32 * 1_380) payload.now }
{
    put_at(incoming, held_at(n), payload);
}

// Puts a state packet at its place in the header store.
pub fn put_header(headers: &mut [u8], place: u32, h: Header)
    requires { (length headers.old ≡ 1_280) × (place < 64) }
    ensures { headers.new ≡ put headers.old (place * 20) (header_bytes h) }
{
    put_at(headers, header_at(place), &h.to_bytes());
}

// The first `size` bytes of packet n's slot of the outgoing store.
pub fn packet_bytes(outgoing: &[u8], n: u32, size: u32) -> &[u8]
    requires { (length outgoing.now ≡ 44_800) × (size ≤ 1_400) }
    ensures { result.now ≡ take size (drop (n % 32 * 1_400) outgoing.now) }
{
    let at = stored_at(n);
    &outgoing[at..at + size as usize]
}

// The bytes from `from` to below `to` of packet n's slot of the incoming store.
pub fn payload_bytes(incoming: &[u8], n: u32, from: u32, to: u32) -> &[u8]
    requires { (length incoming.now ≡ 44_160) × (from ≤ to) × (to ≤ 1_380) }
    ensures { result.now ≡ take (to - from) (drop (n % 32 * 1_380 + from) incoming.now) }
{
    let at = held_at(n);
    &incoming[at + from as usize..at + to as usize]
}

// The state packet at a place in the header store.
pub fn header_bytes(headers: &[u8], place: u32) -> &[u8]
    requires { (length headers.now ≡ 1_280) × (place < 64) }
    ensures { result.now ≡ take 20 (drop (place * 20) headers.now) }
{
    let at = header_at(place);
    &headers[at..at + UDX_HEADER_SIZE]
}
