// What a datagram's type bits do, one part each: SACK blocks, END, DATA (handle_incoming). Each part is lent only the words and stores that
// it writes.
#![tactic(auto)]

ghost use Rattle.std.specs.Prelude.{length};
ghost use Rattle.close_state.specs.State.{Pushable};
ghost use Rattle.deliver_parts.specs.Steps.{Measured, Sacked, Ended, TakesData, TookData};

use constants::{HELD_WORDS, QUEUE_WORDS, SENT_WORDS};
use deliver_acks::Acks;
use deliver_notes::counted_data;
use error::UdxError;
use packet::Header;
use records::{Stream, StreamAndTotals, Timing, Totals};
use rtt::Nanos;

// Acks the numbers of the SACK blocks.
#[tactic(auto, unfolding(records::specs::Seen::seen, model::specs::Receiving::on_sack))]
pub fn on_sack(
    s: Stream,
    t: Totals,
    clock: Nanos,
    h: Header,
    sent: &mut [u64; SENT_WORDS],
    payload: &[u8],
) -> StreamAndTotals
    requires { Measured s clock.0 }
    ensures { Sacked s t clock.0 h payload.now sent.old result sent.new }
{
    if h.is_sack() {
        // What acking changes, as in drive_settle; there it does not go back as it comes out.
        let before = Acks {
            sender: s.sender,
            rtt: s.timing.rtt,
            totals: t,
        };
        let a = deliver_acks::handle_incoming_sacks(before, clock, sent, payload);
        let stream = Stream {
            sender: a.sender,
            timing: Timing {
                rtt: a.rtt,
                ..s.timing
            },
            ..s
        };
        return StreamAndTotals {
            stream,
            totals: a.totals,
        };
    }
    StreamAndTotals {
        stream: s,
        totals: t,
    }
}

// "END closes both sides, sets UnexpectedEof and queues a state packet."
#[tactic(auto, unfolding(records::specs::Seen::seen, model::specs::Receiving::on_end))]
pub fn on_end(
    s: Stream,
    t: Totals,
    h: Header,
    queue: &mut [u64; QUEUE_WORDS],
    headers: &mut [u8],
) -> StreamAndTotals
    requires { Pushable s.queue (length headers.old) }
    ensures { Ended s t h queue.old headers.old result queue.new headers.new }
{
    if h.is_end() {
        let closed = Stream {
            ending: close_state::remote_ended(s.ending),
            ..s
        };
        return close_state::terminate(closed, t, UdxError::UnexpectedEof, queue, headers);
    }
    StreamAndTotals {
        stream: s,
        totals: t,
    }
}

// "DATA is stored when seq is at least ack (a repeat replaces), ack moves past all held in order, and a state packet is queued."
#[tactic(auto, unfolding(records::specs::Seen::seen, model::specs::Receiving::on_data, model::specs::Receiving::count_data))]
pub fn on_data(
    s: Stream,
    t: Totals,
    h: Header,
    held: &mut [u64; HELD_WORDS],
    queue: &mut [u64; QUEUE_WORDS],
    incoming: &mut [u8],
    headers: &mut [u8],
    payload: &[u8],
) -> StreamAndTotals
    requires { Pushable s.queue (length headers.old) × TakesData s h incoming.old payload.now }
    ensures { TookData s t h payload.now held.old queue.old
        incoming.old headers.old result held.new queue.new incoming.new
        headers.new }
{
    if h.is_data() {
        let receiver = deliver_data::absorb(s.receiver, held, incoming, h.seq, payload);
        let k = close_state::send_state_packet(
            s.queue,
            counted_data(t, payload.len()),
            s.ending.error,
            s.ids.remote,
            s.sender.seq,
            receiver.ack,
            queue,
            headers,
        );
        let stream = Stream {
            receiver,
            queue: k.queue,
            ..s
        };
        return StreamAndTotals {
            stream,
            totals: k.totals,
        };
    }
    StreamAndTotals {
        stream: s,
        totals: t,
    }
}
