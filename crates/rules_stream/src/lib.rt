// Refusal 1: the rules of the records, in one pass over the stored packets, one over the held ones and one over the queue. No byte of a
// store is read. specs/Ok.antt has the rules; a range is two comparisons: `contains` would be no plainer.
#![tactic(auto)]

ghost use Rattle.std.specs.Prelude.{◌≡◌};
ghost use Rattle.model.specs.Rules.{segments_range, rtt_ranges};
ghost use Rattle.rules_stream.specs.Ok.{clocks_ok, ok_stream};

use constants::{CLOCK_END, HELD_WORDS, MAX_SEGMENTS, QUEUE_WORDS, RTO_MAX, RTO_MIN, SENT_WORDS};
use records::{Clocks, Stream, Totals};
use rtt::Rtt;
use rules_packets::{ok_receiver, ok_sender};
use rules_queue::ok_queue;

// "the segment ceiling is 1 to 10"
fn ok_segments(most: u8) -> bool
    ensures { result ≡ segments_range most }
{
    1 <= most && most <= MAX_SEGMENTS
}

// "srtt and rttvar are below 2^60, rto is 1,000 ms to 5 × 2^60"
fn ok_rtt(e: Rtt) -> bool
    ensures { result ≡ rtt_ranges e }
{
    let rto = RTO_MIN <= e.rto.0 && e.rto.0 <= RTO_MAX;
    e.srtt.0 < CLOCK_END && e.rttvar.0 < CLOCK_END && rto
}

// "neither .. nor the last drive's clock is past the last clock, which is below 2^60"
fn ok_clocks(k: Clocks) -> bool
    ensures { result ≡ clocks_ok k }
{
    k.drive <= k.last && k.last.0 < CLOCK_END
}

// All the rules of the records.
pub fn ok_stream(
    s: Stream,
    t: Totals,
    sent: &[u64; SENT_WORDS],
    held: &[u64; HELD_WORDS],
    queue: &[u64; QUEUE_WORDS],
) -> bool
    ensures { result ≡ ok_stream s t sent.now held.now queue.now }
{
    // What no pass decides comes first, so that fewer values are kept over the loops.
    let segments = ok_segments(s.ids.segments);
    let estimate = ok_rtt(s.timing.rtt);
    let clocks = ok_clocks(s.clocks);
    if !segments || !estimate || !clocks || !ok_sender(s.sender, t, s.clocks.last, sent) {
        return false;
    }
    let receiver = ok_receiver(s.receiver, held);
    let entries = ok_queue(s.queue, s.sender, queue, sent);
    entries && receiver
}
