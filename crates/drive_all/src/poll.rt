// A whole drive (poll_drive).
ghost use Rattle.std.specs.Prelude.{◌≡◌};
ghost use Rattle.drive_all.specs.Poll.{driven_at, CanDrive, Begun, Flushable, PollFlushes, Polls};

use constants::{QUEUE_WORDS, SENT_WORDS};
use drive_settle::handle_incoming_max_remote_ack;
use drive_timeouts::poll_check_timeouts;
use records::{Clocks, Stream, StreamAndTotals, Totals};
use rtt::Nanos;

// Sets the clock of the last accepted call and of the last drive.
pub fn clocked(s: Stream, clock: Nanos) -> Stream
    ensures { result ≡ driven_at clock.0 s }
{
    Stream {
        clocks: Clocks {
            last: clock,
            drive: clock,
        },
        ..s
    }
}

// Each part is lent only the words and bytes that it uses: lent a struct of all, it would have to promise the others unchanged.

// Everything before waiting packets are queued.
fn before_flush(
    s: Stream,
    t: Totals,
    clock: Nanos,
    sent: &mut [u64; SENT_WORDS],
    queue: &mut [u64; QUEUE_WORDS],
    headers: &mut [u8],
) -> StreamAndTotals
    requires { CanDrive s clock.0 sent.old queue.old headers.old }
    ensures { Begun s t clock.0 sent.old queue.old headers.old result
        sent.new queue.new headers.new }
{
    let a = handle_incoming_max_remote_ack(clocked(s, clock), t, clock, sent);
    poll_check_timeouts(a.stream, a.totals, clock, sent, queue, headers)
}

// Queues waiting packets, and leaves everything queued to take.
fn flush(s: Stream, sent: &mut [u64; SENT_WORDS], queue: &mut [u64; QUEUE_WORDS]) -> Stream
    requires { Flushable s sent.old queue.old }
    ensures { PollFlushes s sent.old queue.old result sent.new queue.new }
{
    let f = drive_flush::flush_waiting_packets(s.sender, s.queue, sent, queue);
    Stream {
        sender: f.sender,
        queue: drive_drain::left_to_take(f.queue),
        ..s
    }
}

// After TimedOut the poll runs again at that clock: nothing is left to settle and nothing is due, so it only flushes.
pub fn poll_drive(
    s: Stream,
    t: Totals,
    clock: Nanos,
    sent: &mut [u64; SENT_WORDS],
    queue: &mut [u64; QUEUE_WORDS],
    headers: &mut [u8],
) -> StreamAndTotals
    requires { CanDrive s clock.0 sent.old queue.old headers.old }
    ensures { Polls s t clock.0 sent.old queue.old headers.old result
        sent.new queue.new headers.new }
{
    let b = before_flush(s, t, clock, sent, queue, headers);
    StreamAndTotals {
        stream: flush(b.stream, sent, queue),
        ..b
    }
}
