// Timeouts (poll_check_timeouts): a due timer backs off, halves the window and considers the packets lost; a packet with no transmits
// left ends the stream. Each step is lent only the words and bytes that it writes.
#![tactic(auto)]

ghost use Rattle.close_state.specs.State.{Pushable};
ghost use Rattle.drive_timeouts.specs.Timeouts.{Losable, Loses, TimesOutStream, Checkable, Checked};
ghost use Rattle.std.specs.Prelude.{length};

use constants::{QUEUE_WORDS, SENT_WORDS};
use error::UdxError;
use records::{Stream, StreamAndTotals, Totals};
use rtt::Nanos;

// The stream is used on whether or not a packet failed: a Result would hold it in both of its cases.
#[derive(Clone, Copy)]
pub struct Lost {
    pub stream: Stream,
    // A packet had no transmits left.
    pub failed: bool,
}

// "deadline = now + 2 × rto, the window becomes max(1,400, half)", and the stored packets wait again.
fn consider_lost(s: Stream, clock: Nanos, sent: &mut [u64; SENT_WORDS]) -> Lost
    requires { Losable s clock.0 sent.old }
    ensures { Loses s clock.0 sent.old result sent.new }
{
    let later = drive_timer::backed_off(s.timing, clock);
    let smaller = drive_timer::shrunk(s.sender);
    let p = drive_lost::time_out_packets(smaller, sent);
    Lost {
        stream: Stream {
            sender: p.sender,
            timing: later,
            ..s
        },
        failed: p.failed,
    }
}

// "TimedOut terminates as in terminate"
fn timed_out(
    s: Stream,
    t: Totals,
    queue: &mut [u64; QUEUE_WORDS],
    headers: &mut [u8],
) -> StreamAndTotals
    requires { Pushable s.queue (length headers.old) }
    ensures { TimesOutStream s t queue.old headers.old result queue.new
        headers.new }
{
    close_state::terminate(s, t, UdxError::TimedOut, queue, headers)
}

// poll_check_timeouts. Packets marked before the one that failed stay marked.
pub fn poll_check_timeouts(
    s: Stream,
    t: Totals,
    clock: Nanos,
    sent: &mut [u64; SENT_WORDS],
    queue: &mut [u64; QUEUE_WORDS],
    headers: &mut [u8],
) -> StreamAndTotals
    requires { Checkable s clock.0 sent.old headers.old }
    ensures { Checked s t clock.0 sent.old queue.old headers.old result
        sent.new queue.new headers.new }
{
    if drive_timer::due(s.timing, clock, s.sender) {
        let lost = consider_lost(s, clock, sent);
        if lost.failed {
            return timed_out(lost.stream, t, queue, headers);
        }
        return StreamAndTotals {
            stream: lost.stream,
            totals: t,
        };
    }
    StreamAndTotals {
        stream: s,
        totals: t,
    }
}
