// The path of a packet between two ends, as C functions to be timed: write, drive, take, deliver and read. Each function makes all the
// calls of its kind in a round, so that little but the calls is timed. `numbers` has the order of bench_calls. What is lent has a parameter
// for each array, as C lends it, and each kind of call its own loop: one for all would take a closure over six lent arrays.
#![tactic(auto)]

use bench_calls::{stream, totals};
use constants::{HELD_WORDS, QUEUE_WORDS, SENT_WORDS};
use records::{Queue, Receiver, Sender, Timing};
use rtt::Nanos;
use udx_steps::{Step, nothing};

fn unpacked(numbers: &[u64; 24]) -> Step {
    nothing(stream(numbers), totals(numbers))
}

// The step when there is no call to make.
fn unchanged(r: Step) -> Step {
    nothing(r.stream, r.totals)
}

// Writes one packet of `size` bytes at a time, 32 at most, until one is not accepted.
fn write(
    r: Step,
    sent: &mut [u64; SENT_WORDS],
    held: &[u64; HELD_WORDS],
    queue: &mut [u64; QUEUE_WORDS],
    outgoing: &mut [u8],
    incoming: &[u8],
    headers: &[u8],
    bytes: &[u8],
    size: usize,
) -> Step {
    if size == 0 {
        return unchanged(r);
    }
    let mut w = r;
    let mut count: usize = 0;
    for packet in bytes.chunks_exact(size).take(32) {
        w = udx::write::write(
            w.stream, w.totals, sent, held, queue, outgoing, incoming, headers, packet,
        );
        if w.count == 0 {
            break;
        }
        count = count.wrapping_add(w.count);
    }
    Step { count, ..w }
}

fn drive(
    r: Step,
    sent: &mut [u64; SENT_WORDS],
    held: &[u64; HELD_WORDS],
    queue: &mut [u64; QUEUE_WORDS],
    outgoing: &[u8],
    incoming: &[u8],
    headers: &mut [u8],
    clock: u64,
) -> Step {
    udx::drive::drive(
        r.stream,
        r.totals,
        sent,
        held,
        queue,
        outgoing,
        incoming,
        headers,
        Nanos(clock),
    )
}

// Takes batches until no entry is left: a queue of 128 entries has 13 batches of ten.
fn take(
    r: Step,
    sent: &mut [u64; SENT_WORDS],
    held: &[u64; HELD_WORDS],
    queue: &[u64; QUEUE_WORDS],
    outgoing: &[u8],
    incoming: &[u8],
    headers: &[u8],
    buf: &mut [u8],
) -> Step {
    let mut w = r;
    let mut count: usize = 0;
    for _ in 0..14 {
        if w.stream.queue.left == 0 {
            break;
        }
        let Some(room) = buf.get_mut(count..) else {
            break;
        };
        w = udx::take::take(
            w.stream, w.totals, sent, held, queue, outgoing, incoming, headers, room,
        );
        count = count.wrapping_add(w.count);
    }
    Step { count, ..w }
}

// Delivers the datagrams of `size` bytes that are not lost, of 128 at most: `lost` has a byte for each, 0 if it arrives: bytes, as C
// lends them.
fn deliver(
    r: Step,
    sent: &mut [u64; SENT_WORDS],
    held: &mut [u64; HELD_WORDS],
    queue: &mut [u64; QUEUE_WORDS],
    outgoing: &[u8],
    incoming: &mut [u8],
    headers: &mut [u8],
    line: &[u8],
    size: usize,
    lost: &[u8],
    clock: u64,
) -> Step {
    if size == 0 {
        return unchanged(r);
    }
    let mut w = r;
    for (datagram, lost) in line.chunks_exact(size).zip(lost).take(128) {
        if *lost == 0 {
            w = udx::deliver::deliver(
                w.stream,
                w.totals,
                sent,
                held,
                queue,
                outgoing,
                incoming,
                headers,
                datagram,
                Nanos(clock),
            );
        }
    }
    w
}

// Reads packets of `size` bytes one at a time, 33 at most, until a read puts nothing. With size 0 the first one puts nothing, but it passes
// over packets without payload.
fn read(
    r: Step,
    sent: &[u64; SENT_WORDS],
    held: &mut [u64; HELD_WORDS],
    queue: &[u64; QUEUE_WORDS],
    outgoing: &[u8],
    incoming: &[u8],
    headers: &[u8],
    buf: &mut [u8],
    size: usize,
) -> Step {
    if size == 0 {
        return udx::read::read(
            r.stream,
            r.totals,
            sent,
            held,
            queue,
            outgoing,
            incoming,
            headers,
            &mut buf[..0],
        );
    }
    let mut w = r;
    let mut count: usize = 0;
    for part in buf.chunks_exact_mut(size).take(33) {
        w = udx::read::read(
            w.stream, w.totals, sent, held, queue, outgoing, incoming, headers, part,
        );
        if w.count == 0 {
            break;
        }
        count = count.wrapping_add(w.count);
    }
    Step { count, ..w }
}

fn keep_sender(n: &mut [u64; 24], s: Sender) {
    n[0] = s.seq as u64;
    n[1] = s.remote_acked as u64;
    n[2] = s.largest_ack as u64;
    n[3] = s.inflight as u64;
    n[4] = s.cwnd as u64;
}

fn keep_receiver(n: &mut [u64; 24], r: Receiver) {
    n[5] = r.ack as u64;
    n[6] = r.read_cursor as u64;
    n[7] = r.top as u64;
}

fn keep_queue(n: &mut [u64; 24], q: Queue) {
    n[8] = q.count as u64;
    n[9] = q.left as u64;
    n[10] = q.states as u64;
    n[11] = q.gone as u64;
}

fn keep_timing(n: &mut [u64; 24], t: Timing) {
    n[12] = t.rtt.srtt.0;
    n[13] = t.rtt.rttvar.0;
    n[14] = t.rtt.rto.0;
    n[15] = t.deadline.0.0;
}

fn keep(n: &mut [u64; 24], r: Step) {
    n[16] = r.stream.clocks.last.0;
    n[17] = r.stream.clocks.drive.0;
    n[19] = r.totals.inflight_packets;
    n[20] = r.totals.inflight_bytes;
    keep_sender(n, r.stream.sender);
    keep_receiver(n, r.stream.receiver);
    keep_queue(n, r.stream.queue);
    keep_timing(n, r.stream.timing);
}

// 1 if the stream has an error.
fn failed(r: Step) -> u32 {
    r.stream.ending.error.is_some() as u32
}

// Returns the bytes accepted.
#[unsafe(no_mangle)]
pub extern "C" fn udx_path_write(
    numbers: &mut [u64; 24],
    sent: &mut [u64; SENT_WORDS],
    held: &[u64; HELD_WORDS],
    queue: &mut [u64; QUEUE_WORDS],
    outgoing: &mut [u8],
    incoming: &[u8],
    headers: &[u8],
    bytes: &[u8],
    size: usize,
) -> usize {
    let r = write(
        unpacked(numbers),
        sent,
        held,
        queue,
        outgoing,
        incoming,
        headers,
        bytes,
        size,
    );
    keep(numbers, r);
    r.count
}

// Returns 1 if the stream then has an error, which `numbers` has no place for.
#[unsafe(no_mangle)]
pub extern "C" fn udx_path_drive(
    numbers: &mut [u64; 24],
    sent: &mut [u64; SENT_WORDS],
    held: &[u64; HELD_WORDS],
    queue: &mut [u64; QUEUE_WORDS],
    outgoing: &[u8],
    incoming: &[u8],
    headers: &mut [u8],
    clock: u64,
) -> u32 {
    let r = drive(
        unpacked(numbers),
        sent,
        held,
        queue,
        outgoing,
        incoming,
        headers,
        clock,
    );
    keep(numbers, r);
    failed(r)
}

// Returns the bytes put.
#[unsafe(no_mangle)]
pub extern "C" fn udx_path_take(
    numbers: &mut [u64; 24],
    sent: &mut [u64; SENT_WORDS],
    held: &[u64; HELD_WORDS],
    queue: &[u64; QUEUE_WORDS],
    outgoing: &[u8],
    incoming: &[u8],
    headers: &[u8],
    buf: &mut [u8],
) -> usize {
    let r = take(
        unpacked(numbers),
        sent,
        held,
        queue,
        outgoing,
        incoming,
        headers,
        buf,
    );
    keep(numbers, r);
    r.count
}

#[unsafe(no_mangle)]
pub extern "C" fn udx_path_deliver(
    numbers: &mut [u64; 24],
    sent: &mut [u64; SENT_WORDS],
    held: &mut [u64; HELD_WORDS],
    queue: &mut [u64; QUEUE_WORDS],
    outgoing: &[u8],
    incoming: &mut [u8],
    headers: &mut [u8],
    line: &[u8],
    size: usize,
    lost: &[u8],
    clock: u64,
) {
    let r = deliver(
        unpacked(numbers),
        sent,
        held,
        queue,
        outgoing,
        incoming,
        headers,
        line,
        size,
        lost,
        clock,
    );
    keep(numbers, r);
}

// Returns the bytes put.
#[unsafe(no_mangle)]
pub extern "C" fn udx_path_read(
    numbers: &mut [u64; 24],
    sent: &[u64; SENT_WORDS],
    held: &mut [u64; HELD_WORDS],
    queue: &[u64; QUEUE_WORDS],
    outgoing: &[u8],
    incoming: &[u8],
    headers: &[u8],
    buf: &mut [u8],
    size: usize,
) -> usize {
    let r = read(
        unpacked(numbers),
        sent,
        held,
        queue,
        outgoing,
        incoming,
        headers,
        buf,
        size,
    );
    keep(numbers, r);
    r.count
}
