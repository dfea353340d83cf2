// The engine's constants, each with its source. "01" is the specification; docs/TRACE.md lists its sentences.
#![tactic(auto)]

// From the Rust's src/constants.rs, with its names.

// Type bit: the packet carries a payload at its seq.
pub const UDX_HEADER_DATA: u8 = 1;
// Type bit: the sender has ended.
pub const UDX_HEADER_END: u8 = 2;
// Type bit: the payload is a list of SACK blocks.
pub const UDX_HEADER_SACK: u8 = 4;
// A packet that is due with more transmits than this fails with TimedOut.
pub const UDX_MAX_TRANSMITS: u8 = 5;
// The G of RFC 6298: 20 ms, in nanoseconds (the Rust's Duration has the unit in its type).
pub const UDX_CLOCK_GRANULARITY: u64 = 20_000_000;
// Bytes of a header.
pub const UDX_HEADER_SIZE: usize = 20;
// Most payload bytes in one piece of a write.
pub const UDX_MAX_DATA_SIZE: usize = 1_380;
// First byte of every header.
pub const UDX_MAGIC_BYTE: u8 = 255;
// Second byte of every header.
pub const UDX_VERSION: u8 = 1;
// Most bytes in a datagram, and the step by which the window grows.
pub const UDX_MTU: u32 = 1_400;

// From the Rust's src/stream.rs, with its names where it has them.

// Below this the window grows by UDX_MTU (const SSTHRESH).
pub const SSTHRESH: u32 = 65_535;
// Most entries in a batch (const MAX_SEGMENTS): 01's largest segment ceiling.
pub const MAX_SEGMENTS: u8 = 10;
// The window of a fresh stream, 2 * UDX_MTU (UdxStream::connect).
pub const CWND_FRESH: u32 = 2_800;
// The rto of a fresh stream, also its minimum: 1,000 ms (connect; handle_remote_ack_for_packet).
pub const RTO_MIN: u64 = 1_000_000_000;
// The window field of every header made here, u32::MAX (create_header).
pub const RECV_WIN: u32 = 4_294_967_295;

// 01, 'Records' and 'Rust forms that need another shape': the geometry of what is lent.

// Slots of the outgoing and of the incoming store: the most packets stored, and the most held.
pub const STORE_SLOTS: u32 = 32;
// Bytes in one slot of the outgoing store: a whole datagram.
pub const OUTGOING_SLOT: usize = 1_400;
// Bytes in one slot of the incoming store: a whole payload.
pub const INCOMING_SLOT: usize = 1_380;
// Most state packets queued at once: the pieces of the header store.
pub const STATE_PACKETS: u32 = 64;
// Bytes in one piece of the header store: a state packet.
pub const HEADER_PIECE: usize = UDX_HEADER_SIZE;
// Most packets queued at once: each slot's packet twice, since a drive can queue again what a write has queued since the last one.
pub const PACKET_ENTRIES: u32 = 2 * STORE_SLOTS;
// Words of the stored packets, two per slot.
pub const SENT_WORDS: usize = 2 * STORE_SLOTS as usize;
// Words of the held packets, one per slot.
pub const HELD_WORDS: usize = STORE_SLOTS as usize;
// Words of the queue, one per entry.
pub const QUEUE_WORDS: usize = (STATE_PACKETS + PACKET_ENTRIES) as usize;
// Bytes of the outgoing store, 44,800.
pub const OUTGOING_STORE: usize = STORE_SLOTS as usize * OUTGOING_SLOT;
// Bytes of the incoming store, 44,160.
pub const INCOMING_STORE: usize = STORE_SLOTS as usize * INCOMING_SLOT;
// Bytes of the header store, 1,280.
pub const HEADER_STORE: usize = STATE_PACKETS as usize * HEADER_PIECE;

// 01, other ceilings.

// The smallest buffer that take accepts, MAX_SEGMENTS x 1,400 (refusal 2).
pub const TAKE_ROOM: usize = 14_000;
// No packet has this number (refusals 11 and 17).
pub const SEQ_END: u32 = 4_294_967_295;
// The window stops here ('Added by design').
pub const CWND_MAX: u32 = 4_294_967_295;
// Clocks, srtt and rttvar are below 2^60 ('Records').
pub const CLOCK_END: u64 = 1_152_921_504_606_846_976;
// The largest rto, 5 x 2^60 ('Rules of the records').
pub const RTO_MAX: u64 = 5_764_607_523_034_234_880;
