// The calls that bench/ times, on plain numbers, as C makes them (crate bench_archive exports them). `numbers` has the order of `stream`
// and `totals` below, which is the C timer's: so they are turned into records by hand, and by no From impl. What is lent has a parameter
// for each array, as C lends it.
#![tactic(auto)]

use constants::{HELD_WORDS, QUEUE_WORDS, SENT_WORDS};
use error::Outcome;
use records::{
    Clocks, Deadline, Ending, Ids, Queue, Receiver, Sender, Stream, StreamState, Timing, Totals,
};
use rtt::{Nanos, Rtt};

// A cast may lose nothing, so the upper bits are dropped first. One line, as in rules_test.
fn narrow(v: u64) -> u32 {
    (v % 4_294_967_296) as u32
}

fn sender(n: &[u64; 24]) -> Sender {
    Sender {
        seq: narrow(n[0]),
        remote_acked: narrow(n[1]),
        largest_ack: narrow(n[2]),
        inflight: narrow(n[3]),
        cwnd: narrow(n[4]),
    }
}

fn receiver(n: &[u64; 24]) -> Receiver {
    Receiver {
        ack: narrow(n[5]),
        read_cursor: narrow(n[6]),
        top: narrow(n[7]),
    }
}

fn queue_numbers(n: &[u64; 24]) -> Queue {
    Queue {
        count: narrow(n[8]),
        left: narrow(n[9]),
        states: narrow(n[10]),
        gone: narrow(n[11]),
    }
}

fn timing(n: &[u64; 24]) -> Timing {
    Timing {
        rtt: Rtt {
            srtt: Nanos(n[12]),
            rttvar: Nanos(n[13]),
            rto: Nanos(n[14]),
        },
        deadline: Deadline(Nanos(n[15])),
    }
}

pub fn stream(n: &[u64; 24]) -> Stream {
    Stream {
        ids: Ids {
            local: 1,
            remote: 1,
            segments: (n[18] % 256) as u8,
        },
        sender: sender(n),
        receiver: receiver(n),
        queue: queue_numbers(n),
        timing: timing(n),
        ending: Ending {
            error: None,
            state: StreamState::Open,
            ended: false,
        },
        clocks: Clocks {
            last: Nanos(n[16]),
            drive: Nanos(n[17]),
        },
    }
}

pub fn totals(n: &[u64; 24]) -> Totals {
    Totals {
        inflight_packets: n[19],
        inflight_bytes: n[20],
        ..Totals::default()
    }
}

// Refusal 1 on the whole records: returns 1 if they keep the rules.
pub fn udx_bench_rules(
    numbers: &[u64; 24],
    sent: &[u64; SENT_WORDS],
    held: &[u64; HELD_WORDS],
    queue: &[u64; QUEUE_WORDS],
) -> u32 {
    rules_stream::ok_stream(stream(numbers), totals(numbers), sent, held, queue) as u32
}

// One write: returns the bytes accepted.
pub fn udx_bench_write(
    numbers: &[u64; 24],
    sent: &mut [u64; SENT_WORDS],
    held: &[u64; HELD_WORDS],
    queue: &mut [u64; QUEUE_WORDS],
    outgoing: &mut [u8],
    incoming: &[u8],
    headers: &[u8],
    bytes: &[u8],
) -> usize {
    let (s, t) = (stream(numbers), totals(numbers));
    udx::write::write(s, t, sent, held, queue, outgoing, incoming, headers, bytes).count
}

// One take: returns the bytes put.
pub fn udx_bench_take(
    numbers: &[u64; 24],
    sent: &mut [u64; SENT_WORDS],
    held: &[u64; HELD_WORDS],
    queue: &[u64; QUEUE_WORDS],
    outgoing: &[u8],
    incoming: &[u8],
    headers: &[u8],
    buf: &mut [u8],
) -> usize {
    let (s, t) = (stream(numbers), totals(numbers));
    udx::take::take(s, t, sent, held, queue, outgoing, incoming, headers, buf).count
}

// One delivery: returns 1 if it is accepted.
pub fn udx_bench_deliver(
    numbers: &[u64; 24],
    sent: &mut [u64; SENT_WORDS],
    held: &mut [u64; HELD_WORDS],
    queue: &mut [u64; QUEUE_WORDS],
    outgoing: &[u8],
    incoming: &mut [u8],
    headers: &mut [u8],
    datagram: &[u8],
    clock: u64,
) -> u32 {
    let (s, t) = (stream(numbers), totals(numbers));
    let r = udx::deliver::deliver(
        s,
        t,
        sent,
        held,
        queue,
        outgoing,
        incoming,
        headers,
        datagram,
        Nanos(clock),
    );
    (r.outcome == Ok(Outcome::Ready)) as u32
}

// One read: returns the bytes put.
pub fn udx_bench_read(
    numbers: &[u64; 24],
    sent: &[u64; SENT_WORDS],
    held: &mut [u64; HELD_WORDS],
    queue: &[u64; QUEUE_WORDS],
    outgoing: &[u8],
    incoming: &[u8],
    headers: &[u8],
    buf: &mut [u8],
) -> usize {
    let (s, t) = (stream(numbers), totals(numbers));
    udx::read::read(s, t, sent, held, queue, outgoing, incoming, headers, buf).count
}

// One drive: returns the entries left to take plus remote acked.
pub fn udx_bench_drive(
    numbers: &[u64; 24],
    sent: &mut [u64; SENT_WORDS],
    held: &[u64; HELD_WORDS],
    queue: &mut [u64; QUEUE_WORDS],
    outgoing: &[u8],
    incoming: &[u8],
    headers: &mut [u8],
    clock: u64,
) -> u64 {
    let (s, t) = (stream(numbers), totals(numbers));
    let r = udx::drive::drive(
        s,
        t,
        sent,
        held,
        queue,
        outgoing,
        incoming,
        headers,
        Nanos(clock),
    );
    r.stream.queue.left as u64 + r.stream.sender.remote_acked as u64
}
