// The records of a stream: its numbers by value, grouped as in the model; its packets and its queue as words of lent arrays; the bytes in
// three lent stores. specs/Seen.antt defines what they mean.
//
// No struct of the engine holds the words and stores. C lends each by a pointer of its own, and a call writes some and only reads the others: a function
// takes each as `&mut` or as `&`, so that its type says which of them it leaves as they were. One struct would be lent as a whole to be
// written, and every contract would have to promise the rest unchanged. The words are arrays for the most there can be: there is no heap.
#![tactic(auto)]

pub mod open;

ghost use Rattle.std.specs.Prelude.{◌≡◌, ◌+◌, leb};

use error::UdxError;
pub use open::{Opened, stores_differ};
pub use records_places::slot;
pub use records_words::{
    Entry, Held, QueuedPacket, Sent, clear_held, clear_sent, find_held, find_sent, get_entry,
    get_held, get_sent, is_held, is_short, is_sized, is_stored, put_entry, put_held, put_sent,
    same_packet,
};
use rtt::{Nanos, Rtt};

#[derive(Clone, Copy)]
pub struct Ids {
    pub local: u32,
    pub remote: u32,
    // The segment ceiling: the most entries in a batch, 1 to 10.
    pub segments: u8,
}

#[derive(Clone, Copy)]
pub struct Sender {
    // The number of the next packet.
    pub seq: u32,
    // Every packet below it has been settled; seq is at most 32 past it.
    pub remote_acked: u32,
    // The largest ack delivered since the last drive, at most seq; 0 without one, which settles nothing.
    pub largest_ack: u32,
    // Bytes of the stored packets that are not waiting.
    pub inflight: u32,
    // The congestion window, 1,400 or more.
    pub cwnd: u32,
}

// Whether `bytes` more bytes fit the window; by a difference, because the sum could wrap.
pub fn fits(inflight: u32, bytes: u32, cwnd: u32) -> bool
    ensures { result ≡ leb (inflight + bytes) cwnd }
{
    inflight <= cwnd && bytes <= cwnd - inflight
}

#[derive(Clone, Copy, Default)]
pub struct Receiver {
    // Every number below it has been delivered; it is at most 32 past the read cursor.
    pub ack: u32,
    // The number of the packet that the next read starts with.
    pub read_cursor: u32,
    // Held numbers are below it; it is at most 32 past the read cursor.
    pub top: u32,
}

// The queue is the words below `count`, or only the last `left` of them while entries are left to take. Nothing is pushed while some are
// left, and taking the last one empties the queue, so it needs no ring.
#[derive(Clone, Copy, Default)]
pub struct Queue {
    pub count: u32,
    pub left: u32,
    // State packets queued since the queue was empty: the next one's place in the header store.
    pub states: u32,
    // State packets taken since then: the place of the first one still queued.
    pub gone: u32,
}

// When the retransmission timer is due. A type of its own, which only the crate drive_timer compares with a clock.
#[derive(Clone, Copy)]
pub struct Deadline(pub Nanos);

#[derive(Clone, Copy)]
pub struct Timing {
    pub rtt: Rtt,
    pub deadline: Deadline,
}

// The Rust's StreamState, in the order of C's numbers for it.
#[derive(Clone, Copy)]
pub enum StreamState {
    Open,
    LocalClosed,
    RemoteClosed,
    BothClosed,
}

#[derive(Clone, Copy)]
pub struct Ending {
    // None while the stream runs.
    pub error: Option<UdxError>,
    pub state: StreamState,
    // A drive has answered done. A flag, since done changes neither error nor state.
    pub ended: bool,
}

// The parts of a call that add to its clock say in their contracts that it is below 2^60, as refusal 4 has tested. A type with that bound
// would not do for the two instants here: in records that a caller lends they may be any number.
#[derive(Clone, Copy)]
pub struct Clocks {
    // Of the last accepted call with a clock, below 2^60.
    pub last: Nanos,
    // Of the last drive, at most `last`.
    pub drive: Nanos,
}

// Its numbers may break any rule, since refusal 1 must be able to see that. So no field has an invariant, and each part of a call states in
// its contract what it needs.
#[derive(Clone, Copy)]
pub struct Stream {
    pub ids: Ids,
    pub sender: Sender,
    pub receiver: Receiver,
    pub queue: Queue,
    pub timing: Timing,
    pub clocks: Clocks,
    // Last field: its few bytes would misalign what follows, and copies of that are slow.
    pub ending: Ending,
}

// The Rust's StreamStats.
#[derive(Clone, Copy, Default)]
pub struct Totals {
    pub tx_packets: u64,
    pub tx_bytes: u64,
    pub rx_packets: u64,
    pub rx_bytes: u64,
    pub inflight_packets: u64,
    pub inflight_bytes: u64,
}

// The stream and totals after one part of a call, in the one value that a function returns. As parameters the two stay apart: the calls get
// them so, and a part may get a stream that has changed with totals that have not.
#[derive(Clone, Copy)]
pub struct StreamAndTotals {
    pub stream: Stream,
    pub totals: Totals,
}
