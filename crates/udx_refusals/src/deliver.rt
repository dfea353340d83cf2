// The refusals of a delivery: 1, 4 to 6, then 7, then those that need its header, 8 to 13.
ghost use Rattle.std.specs.Prelude.{◌≡◌, ◌&&◌, ◌+◌, leb};
ghost use Rattle.packet.specs.Header.{has_type};
ghost use Rattle.udx_refusals.specs.Verdicts.{header_verdict, delivery_verdict};

use crate::early::early_verdict;
use constants::{SEQ_END, STATE_PACKETS, STORE_SLOTS, UDX_HEADER_SIZE, UDX_MAX_DATA_SIZE};
use error::Refusal;
use packet::Header;
use records::Stream;
use rtt::Nanos;

const SLOTS: u64 = STORE_SLOTS as u64;

// "DATA is numbered 4,294,967,295."
fn last_number(h: Header) -> bool
    ensures { result ≡ (has_type 1 h.typ && leb 4_294_967_295 h.seq) }
{
    h.is_data() && SEQ_END <= h.seq
}

// "DATA is numbered at or past read cursor + 32."
fn past_incoming(h: Header, cursor: u32) -> bool
    ensures { result ≡ (has_type 1 h.typ && leb (cursor + 32) h.seq) }
{
    h.is_data() && cursor as u64 + SLOTS <= h.seq as u64
}

// Refusals 8 to 13, in this order. A delivery may queue two state packets, so it needs two free places.
#[tactic(auto, unfolding(crate::specs::Verdicts::header_verdict))]
pub fn header_verdict(s: Stream, h: Header, payload: usize) -> Result<(), Refusal>
    ensures { result ≡ header_verdict s h payload }
{
    if h.stream_id != s.ids.local {
        return Err(Refusal::OtherStream);
    }
    if UDX_MAX_DATA_SIZE < payload {
        return Err(Refusal::LongPayload);
    }
    if s.sender.seq < h.ack {
        return Err(Refusal::AckPastSeq);
    }
    if last_number(h) {
        return Err(Refusal::SeqEnd);
    }
    if past_incoming(h, s.receiver.read_cursor) {
        return Err(Refusal::PastIncoming);
    }
    if STATE_PACKETS - 2 <= s.queue.states {
        return Err(Refusal::StateQueueFull);
    }
    Ok(())
}

// Refusals 1 and 4 to 13, in this order. The header of an accepted delivery is what it is handled by, so the datagram is decoded once.
#[tactic(auto, unfolding(crate::specs::Verdicts::delivery_verdict, packet::specs::Header::decoded))]
pub fn delivery_verdict(
    broken: bool,
    s: Stream,
    clock: Nanos,
    datagram: &[u8],
) -> Result<Header, Refusal>
    ensures { result ≡ delivery_verdict broken s clock.0 datagram.now }
{
    early_verdict(broken, s, clock)?;
    let h = Header::from_bytes(datagram)?;
    header_verdict(s, h, datagram.len() - UDX_HEADER_SIZE)?;
    Ok(h)
}
