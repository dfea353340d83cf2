// An end's numbers, as the drill prints them (docs/DRILL.md). Error and state have C's numbers, but the drill makes the calls below C's
// boundary and so uses none of its crates.
use records::Queue;
use session_ends::SessionEnd;

// While entries are left to take, they are the whole queue.
fn entries(q: Queue) -> u32 {
    if 0 < q.left { q.left } else { q.count }
}

pub fn numbers(e: SessionEnd) -> [u64; 22] {
    let s = e.stream;
    let t = e.totals;
    [
        s.sender.seq as u64,
        s.sender.remote_acked as u64,
        s.sender.largest_ack as u64,
        s.sender.inflight as u64,
        s.sender.cwnd as u64,
        s.receiver.ack as u64,
        s.receiver.read_cursor as u64,
        s.timing.rtt.srtt.0,
        s.timing.rtt.rttvar.0,
        s.timing.rtt.rto.0,
        s.timing.deadline.0.0,
        s.ending.error.map_or(0, |e| e as u64),
        s.ending.state as u64,
        s.ending.ended as u64,
        entries(s.queue) as u64,
        s.queue.left as u64,
        t.tx_packets,
        t.tx_bytes,
        t.rx_packets,
        t.rx_bytes,
        t.inflight_packets,
        t.inflight_bytes,
    ]
}
