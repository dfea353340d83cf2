// A delivered datagram that no refusal stops: count, SACK blocks, END, DATA, window (handle_incoming).
#![tactic(auto)]

ghost use Rattle.std.specs.Prelude.{length};
ghost use Rattle.close_state.specs.State.{Pushable};
ghost use Rattle.deliver_parts.specs.Steps.{Measured};
ghost use Rattle.deliver_all.specs.Handle.{Began, CanDeliver, Handled};

use constants::{HELD_WORDS, QUEUE_WORDS, SENT_WORDS};
use deliver_notes::{clocked, counted_received, on_ack};
use deliver_parts::{on_data, on_end, on_sack};
use packet::Header;
use records::{Stream, StreamAndTotals, Totals};
use rtt::Nanos;

// Each part is lent only the words and stores that it uses: lent a struct of all, it would have to promise the others unchanged.

// Everything before DATA.
fn before_data(
    s: Stream,
    t: Totals,
    clock: Nanos,
    h: Header,
    sent: &mut [u64; SENT_WORDS],
    queue: &mut [u64; QUEUE_WORDS],
    headers: &mut [u8],
    payload: &[u8],
) -> StreamAndTotals
    requires { Measured s clock.0 × Pushable s.queue (length headers.old) }
    ensures { Began s t clock.0 h payload.now sent.old queue.old
        headers.old result sent.new queue.new headers.new }
{
    let counted = counted_received(t);
    let stream = clocked(s, clock);
    let a = on_sack(stream, counted, clock, h, sent, payload);
    on_end(a.stream, a.totals, h, queue, headers)
}

pub fn handle_incoming(
    s: Stream,
    t: Totals,
    clock: Nanos,
    h: Header,
    sent: &mut [u64; SENT_WORDS],
    held: &mut [u64; HELD_WORDS],
    queue: &mut [u64; QUEUE_WORDS],
    incoming: &mut [u8],
    headers: &mut [u8],
    payload: &[u8],
) -> StreamAndTotals
    requires { CanDeliver s clock.0 h queue.old incoming.old headers.old payload.now }
    ensures { Handled s t clock.0 h payload.now sent.old held.old
        queue.old incoming.old headers.old result sent.new held.new
        queue.new incoming.new headers.new }
{
    let b = before_data(s, t, clock, h, sent, queue, headers, payload);
    let d = on_data(
        b.stream, b.totals, h, held, queue, incoming, headers, payload,
    );
    let stream = Stream {
        sender: on_ack(d.stream.sender, h.ack),
        ..d.stream
    };
    StreamAndTotals { stream, ..d }
}
