// The records as C sees them: the groups of `records` with their fields, every field a plain number. include/udx.h says what each number
// means. They are structs of their own even where the fields are the same: `records` has no C layout, and C's must not move when a
// record does.

#[repr(C)]
#[derive(Clone, Copy)]
pub struct FlatIds {
    pub local: u32,
    pub remote: u32,
    pub segments: u8,
}

#[repr(C)]
#[derive(Clone, Copy)]
pub struct FlatSender {
    pub seq: u32,
    pub remote_acked: u32,
    pub largest_ack: u32,
    pub inflight: u32,
    pub cwnd: u32,
}

#[repr(C)]
#[derive(Clone, Copy)]
pub struct FlatReceiver {
    pub ack: u32,
    pub read_cursor: u32,
    pub top: u32,
}

#[repr(C)]
#[derive(Clone, Copy)]
pub struct FlatQueue {
    pub count: u32,
    pub left: u32,
    pub states: u32,
    pub gone: u32,
}

#[repr(C)]
#[derive(Clone, Copy)]
pub struct FlatTiming {
    pub srtt: u64,
    pub rttvar: u64,
    pub rto: u64,
    pub deadline: u64,
}

#[repr(C)]
#[derive(Clone, Copy)]
pub struct FlatClocks {
    pub last: u64,
    pub drive: u64,
}

// Bytes, not enums, since C may pass any value.
#[repr(C)]
#[derive(Clone, Copy)]
pub struct FlatEnding {
    // 0 none, 1 ConnectionReset, 2 UnexpectedEof, 3 TimedOut.
    pub error: u8,
    // 0 open, 1 local side closed, 2 remote side closed, 3 both closed.
    pub state: u8,
    // 1 once a drive has answered done, else 0.
    pub ended: u8,
}

#[repr(C)]
#[derive(Clone, Copy)]
pub struct FlatStream {
    pub ids: FlatIds,
    pub sender: FlatSender,
    pub receiver: FlatReceiver,
    pub queue: FlatQueue,
    pub timing: FlatTiming,
    pub clocks: FlatClocks,
    pub ending: FlatEnding,
}

#[repr(C)]
#[derive(Clone, Copy)]
pub struct FlatTotals {
    pub tx_packets: u64,
    pub tx_bytes: u64,
    pub rx_packets: u64,
    pub rx_bytes: u64,
    pub inflight_packets: u64,
    pub inflight_bytes: u64,
}

// What every call answers. C has no Result and no Option: `refusal` is 0 unless the outcome is 4.
#[repr(C)]
#[derive(Clone, Copy)]
pub struct FlatStep {
    pub stream: FlatStream,
    pub totals: FlatTotals,
    pub count: usize,
    // A batch's segment size, 0 if it has none.
    pub segment: usize,
    // 0 ok, 1 wait, 2 done, 3 none, 4 refused.
    pub outcome: u8,
    pub refusal: u8,
}
