// Deliver for C.
ghost use Rattle.model.specs.Receiving as model_receiving;
ghost use Rattle.rules_lent.specs.Broken.{lent};
ghost use Rattle.udx.specs.Agree.{Answers};
ghost use Rattle.udx_c.specs.Crosses.{Crosses};

use constants::{HELD_WORDS, QUEUE_WORDS, SENT_WORDS};
use records::Stream;
use rtt::Nanos;
use udx_c_numbers::{FlatStep, FlatStream, FlatTotals, broken_step};

pub fn udx_deliver(
    stream: FlatStream,
    totals: FlatTotals,
    sent: &mut [u64; SENT_WORDS],
    held: &mut [u64; HELD_WORDS],
    queue: &mut [u64; QUEUE_WORDS],
    outgoing: &[u8],
    incoming: &mut [u8],
    headers: &mut [u8],
    datagram: &[u8],
    clock: u64,
) -> FlatStep
    ensures { Crosses (Answers (model_receiving.deliver datagram.now clock)) stream totals
        (lent sent.old held.old queue.old outgoing.now
        incoming.old headers.old)
        result
        (lent sent.new held.new queue.new outgoing.now incoming.new
        headers.new) }
{
    let Ok(s) = Stream::try_from(stream) else {
        return broken_step(stream, totals);
    };
    udx::deliver::deliver(
        s,
        totals.into(),
        sent,
        held,
        queue,
        outgoing,
        incoming,
        headers,
        datagram,
        Nanos(clock),
    )
    .into()
}
