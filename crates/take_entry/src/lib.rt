// Taking one entry of a batch: its bytes, and its packet's mark (to_transmit, for one packet).
#![tactic(auto)]

ghost use Rattle.std.specs.Prelude.{◌≡◌, ◌+◌, ◌<◌, ◌≤◌, length};
ghost use Rattle.take_entry.specs.Transmit.{found_stored, taken_packet, TransmitBounds, TakesState, TakesPacket, CanTakeEntry, TakesEntry};

use constants::{SENT_WORDS, UDX_HEADER_SIZE};
use records::{Entry, Sender, Sent};
use rtt::Nanos;

// How much of a batch has been put.
#[derive(Clone, Copy)]
pub struct Progress {
    // Bytes put. A count, since the contracts speak of the whole buffer, and a slice of it would keep it lent.
    pub at: usize,
    // The place of the next state packet in the header store.
    pub place: u32,
}

// Packet n, if it is from remote acked to below seq and its slot holds it.
pub fn find_stored(s: Sender, sent: &[u64; SENT_WORDS], n: u32) -> Option<Sent>
    ensures { result ≡ found_stored s sent.now n }
{
    if s.remote_acked <= n && n < s.seq {
        records::find_sent(sent, n)
    } else {
        None
    }
}

// The socket driver's mark: the time sent is the drive's clock, and there is one more transmit. A packet that is considered lost gains a
// transmit as well (crate drive_lost), but it waits and gets no time.
fn taken_packet(p: Sent, drive: Nanos) -> Sent
    requires { p.transmits ≤ 30 }
    ensures { result ≡ taken_packet p drive.0 }
{
    Sent {
        transmits: p.transmits + 1,
        sent_at: Some(drive),
        ..p
    }
}

// Puts a state packet's bytes, which are at the next place in the header store.
fn take_state(p: Progress, headers: &[u8], buf: &mut [u8]) -> Progress
    requires { (length headers.now ≡ 1_280) × (p.place < 64) × (p.at + 1_400 ≤ length buf.old) }
    ensures { TakesState p headers.now buf.old result buf.new }
{
    let part = records_stores::header_bytes(headers, p.place);
    records_stores::put_at(buf, p.at, part);
    Progress {
        at: p.at + UDX_HEADER_SIZE,
        place: p.place + 1,
    }
}

// Puts a stored packet's bytes, and marks it.
fn take_packet(
    p: Progress,
    packet: Sent,
    drive: Nanos,
    sent: &mut [u64; SENT_WORDS],
    outgoing: &[u8],
    buf: &mut [u8],
) -> Progress
    requires { (length outgoing.now ≡ 44_800) × TransmitBounds packet 30 × (p.at + 1_400 ≤ length buf.old) }
    ensures { TakesPacket p packet drive.0 sent.old outgoing.now buf.old result
        sent.new buf.new }
{
    records::put_sent(sent, taken_packet(packet, drive));
    let part = records_stores::packet_bytes(outgoing, packet.number, packet.length);
    records_stores::put_at(buf, p.at, part);
    Progress {
        at: p.at + packet.length as usize,
        ..p
    }
}

// Takes one entry: its bytes go to p.at. A packet that has left the store counts but writes nothing, so the next bytes go there.
#[tactic(auto, using(crate::proofs::TakeOne::sending))]
pub fn transmit(
    s: Sender,
    x: Entry,
    p: Progress,
    drive: Nanos,
    sent: &mut [u64; SENT_WORDS],
    outgoing: &[u8],
    headers: &[u8],
    buf: &mut [u8],
) -> Progress
    requires { CanTakeEntry s x drive.0 p sent.old outgoing.now headers.now buf.old }
    ensures { TakesEntry s x drive.0 p sent.old outgoing.now headers.now
        buf.old result sent.new buf.new }
{
    match x {
        Entry::State => take_state(p, headers, buf),
        Entry::Packet(x) => {
            if let Some(packet) = find_stored(s, sent, x.number) {
                take_packet(p, packet, drive, sent, outgoing, buf)
            } else {
                p
            }
        }
    }
}
