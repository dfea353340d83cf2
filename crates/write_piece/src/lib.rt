// One piece of a write: checks whether it goes, stores its packet, queues its entry and updates the numbers (send_data_packet). A piece is
// at most 1,380 bytes, as write_all cuts it; its length is that of its slice and has no type of its own.
#![tactic(auto)]

ghost use Rattle.std.specs.Prelude.{◌≡◌, ◌*◌, ◌%◌, ◌<◌, ◌≤◌, ◌++◌, length};
ghost use Rattle.packet.specs.Header.{header_bytes};
ghost use Rattle.records.specs.Put.{put};
ghost use Rattle.write_piece.specs.Piece.{
  header_of,
  new_packet,
  new_entry,
  sent_sender,
  pushed_queue,
  counted_totals,
  may_go,
  sent_put,
  Room,
  SendsPiece,
};

use constants::{
    QUEUE_WORDS, RECV_WIN, SENT_WORDS, SEQ_END, STORE_SLOTS, UDX_HEADER_DATA, UDX_HEADER_SIZE,
};
use packet::Header;
use records::{Entry, Queue, QueuedPacket, Sender, Sent, Totals};

const HEADER: u32 = UDX_HEADER_SIZE as u32;

// What a sent piece changes besides the words and the bytes.
#[derive(Clone, Copy)]
pub struct Outbox {
    pub sender: Sender,
    pub queue: Queue,
    pub totals: Totals,
}

// The Rust's create_header.
pub fn create_header(typ: u8, remote: u32, seq: u32, ack: u32) -> Header
    ensures { result ≡ header_of typ remote seq ack }
{
    Header {
        typ,
        data_offset: 0,
        stream_id: remote,
        recv_win: RECV_WIN,
        seq,
        ack,
    }
}

// A packet that was never transmitted.
fn new_packet(n: u32, payload: usize) -> Sent
    requires { payload ≤ 1_380 }
    ensures { result ≡ new_packet n payload }
{
    Sent {
        number: n,
        length: payload as u32 + HEADER,
        transmits: 0,
        waiting: false,
        sent_at: None,
    }
}

fn new_entry(n: u32, payload: usize) -> Entry
    requires { payload ≤ 1_380 }
    ensures { result ≡ new_entry n payload }
{
    Entry::Packet(QueuedPacket {
        number: n,
        length: payload as u32 + HEADER,
    })
}

// The sender with one more packet: inflight grows by payload + 20.
fn sent_sender(s: Sender, payload: usize) -> Sender
    requires { (payload ≤ 1_380) × (s.seq < 4_294_967_295) × (s.inflight ≤ 4_000_000_000) }
    ensures { result ≡ sent_sender s payload }
{
    Sender {
        seq: s.seq + 1,
        inflight: s.inflight + (payload as u32 + HEADER),
        ..s
    }
}

fn pushed_queue(q: Queue) -> Queue
    requires { q.count < 128 }
    ensures { result ≡ pushed_queue q }
{
    Queue {
        count: q.count + 1,
        ..q
    }
}

fn counted_totals(t: Totals, payload: usize) -> Totals
    requires { (payload ≤ 1_380) × (t.inflight_packets ≤ 1_000_000) × (t.inflight_bytes ≤ 1_000_000_000) }
    ensures { result ≡ counted_totals t payload }
{
    let n = payload as u64;
    Totals {
        tx_packets: t.tx_packets.wrapping_add(1),
        tx_bytes: t.tx_bytes.wrapping_add(n),
        inflight_packets: t.inflight_packets + 1,
        inflight_bytes: t.inflight_bytes + n,
        ..t
    }
}

// Whether a piece goes: send_data_packet's test, and 01's ceilings.
pub fn goes(s: Sender, payload: usize) -> bool
    requires { payload ≤ 1_380 }
    ensures { result ≡ may_go s payload }
{
    records::fits(s.inflight, payload as u32, s.cwnd)
        && s.seq.saturating_sub(s.remote_acked) < STORE_SLOTS
        && s.seq < SEQ_END
}

// Stores the packet of a piece: its bytes in the outgoing store, its record in the words (create_packet, outgoing.insert).
fn store_packet(sent: &mut [u64; SENT_WORDS], outgoing: &mut [u8], h: Header, piece: &[u8])
    requires { (length outgoing.old ≡ 44_800) × (length piece.now ≤ 1_380) }
    ensures { (sent.new ≡ sent_put sent.old (new_packet h.seq (length piece.now)))
        × (outgoing.new ≡ put outgoing.old (h.seq % 32 * 1_400) (header_bytes h ++ piece.now)) }
{
    records_stores::put_packet(outgoing, h, piece);
    records::put_sent(sent, new_packet(h.seq, piece.len()));
}

// The Rust's send_data_packet. It is lent only the words and the store that it writes.
pub fn send_data_packet(
    o: Outbox,
    remote: u32,
    ack: u32,
    sent: &mut [u64; SENT_WORDS],
    queue: &mut [u64; QUEUE_WORDS],
    outgoing: &mut [u8],
    piece: &[u8],
) -> Outbox
    requires { Room o (length outgoing.old) (length piece.now) }
    ensures { SendsPiece o remote ack piece.now sent.old queue.old
        outgoing.old result sent.new queue.new outgoing.new }
{
    let n = o.sender.seq;
    let h = create_header(UDX_HEADER_DATA, remote, n, ack);
    store_packet(sent, outgoing, h, piece);
    records::put_entry(queue, o.queue.count as usize, new_entry(n, piece.len()));
    Outbox {
        sender: sent_sender(o.sender, piece.len()),
        queue: pushed_queue(o.queue),
        totals: counted_totals(o.totals, piece.len()),
    }
}
