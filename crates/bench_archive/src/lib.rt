// The archive of what bench/ times: each function of bench_calls under its name. A crate is a library or an archive and not both, and
// bench_path uses bench_calls as a library.
#![tactic(auto)]

use constants::{HELD_WORDS, QUEUE_WORDS, SENT_WORDS};

// Refusal 1 on the whole records: returns 1 if they keep the rules.
#[unsafe(no_mangle)]
pub extern "C" fn udx_bench_rules(
    numbers: &[u64; 24],
    sent: &[u64; SENT_WORDS],
    held: &[u64; HELD_WORDS],
    queue: &[u64; QUEUE_WORDS],
) -> u32 {
    bench_calls::udx_bench_rules(numbers, sent, held, queue)
}

// One write: returns the bytes accepted.
#[unsafe(no_mangle)]
pub extern "C" fn udx_bench_write(
    numbers: &[u64; 24],
    sent: &mut [u64; SENT_WORDS],
    held: &[u64; HELD_WORDS],
    queue: &mut [u64; QUEUE_WORDS],
    outgoing: &mut [u8],
    incoming: &[u8],
    headers: &[u8],
    bytes: &[u8],
) -> usize {
    bench_calls::udx_bench_write(
        numbers, sent, held, queue, outgoing, incoming, headers, bytes,
    )
}

// One take: returns the bytes put.
#[unsafe(no_mangle)]
pub extern "C" fn udx_bench_take(
    numbers: &[u64; 24],
    sent: &mut [u64; SENT_WORDS],
    held: &[u64; HELD_WORDS],
    queue: &[u64; QUEUE_WORDS],
    outgoing: &[u8],
    incoming: &[u8],
    headers: &[u8],
    buf: &mut [u8],
) -> usize {
    bench_calls::udx_bench_take(numbers, sent, held, queue, outgoing, incoming, headers, buf)
}

// One delivery: returns 1 if it is accepted.
#[unsafe(no_mangle)]
pub extern "C" fn udx_bench_deliver(
    numbers: &[u64; 24],
    sent: &mut [u64; SENT_WORDS],
    held: &mut [u64; HELD_WORDS],
    queue: &mut [u64; QUEUE_WORDS],
    outgoing: &[u8],
    incoming: &mut [u8],
    headers: &mut [u8],
    datagram: &[u8],
    clock: u64,
) -> u32 {
    bench_calls::udx_bench_deliver(
        numbers, sent, held, queue, outgoing, incoming, headers, datagram, clock,
    )
}

// One read: returns the bytes put.
#[unsafe(no_mangle)]
pub extern "C" fn udx_bench_read(
    numbers: &[u64; 24],
    sent: &[u64; SENT_WORDS],
    held: &mut [u64; HELD_WORDS],
    queue: &[u64; QUEUE_WORDS],
    outgoing: &[u8],
    incoming: &[u8],
    headers: &[u8],
    buf: &mut [u8],
) -> usize {
    bench_calls::udx_bench_read(numbers, sent, held, queue, outgoing, incoming, headers, buf)
}

// One drive: returns the entries left to take plus remote acked.
#[unsafe(no_mangle)]
pub extern "C" fn udx_bench_drive(
    numbers: &[u64; 24],
    sent: &mut [u64; SENT_WORDS],
    held: &[u64; HELD_WORDS],
    queue: &mut [u64; QUEUE_WORDS],
    outgoing: &[u8],
    incoming: &[u8],
    headers: &mut [u8],
    clock: u64,
) -> u64 {
    bench_calls::udx_bench_drive(
        numbers, sent, held, queue, outgoing, incoming, headers, clock,
    )
}
