// Breaks one thing in an end's records; docs/DRILL.md lists the values of `which`. Each is met in one place only, so it stays a number.
use constants::CLOCK_END;
use rtt::Nanos;
use session_ends::SessionEnd;

// An end with thing `which` broken; 0 to 6 change nothing here: 1 to 6 are about the lengths of the stores.
pub fn broken(mut e: SessionEnd, which: u8) -> SessionEnd {
    match which {
        7 => e.stream.ids.segments = 0,
        8 => e.stream.ids.segments = 11,
        9 => e.stream.sender.seq = e.stream.sender.remote_acked.wrapping_add(33),
        10 => e.stream.sender.seq = e.stream.sender.remote_acked.wrapping_sub(1),
        11 => e.stream.receiver.ack = e.stream.receiver.read_cursor.wrapping_add(33),
        12 => e.stream.receiver.ack = e.stream.receiver.read_cursor.wrapping_sub(1),
        13 => e.stream.receiver.read_cursor = e.stream.receiver.ack.wrapping_add(1),
        14 => e.stream.sender.cwnd = 1_399,
        15 => e.stream.sender.inflight = e.stream.sender.inflight.wrapping_add(1),
        16 => e.totals.inflight_packets = e.totals.inflight_packets.wrapping_add(1),
        17 => e.totals.inflight_bytes = e.totals.inflight_bytes.wrapping_add(1),
        18 => e.stream.timing.rtt.srtt = Nanos(CLOCK_END),
        19 => e.stream.timing.rtt.rttvar = Nanos(CLOCK_END),
        20 => e.stream.timing.rtt.rto = Nanos(999_999_999),
        21 => e.stream.timing.rtt.rto = Nanos(5_764_607_523_034_234_881),
        22 => e.stream.clocks.last = Nanos(CLOCK_END),
        23 => e.stream.clocks.drive = Nanos(e.stream.clocks.last.0.wrapping_add(1)),
        // One more entry to take than the queue has words.
        24 => e.stream.queue.left = e.stream.queue.count.wrapping_add(1),
        _ => {}
    }
    e
}
