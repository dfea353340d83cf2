// Close for C.
ghost use Rattle.model.specs.Sending as model;
ghost use Rattle.rules_lent.specs.Broken.{lent};
ghost use Rattle.udx.specs.Agree.{Answers};
ghost use Rattle.udx_c.specs.Crosses.{Crosses};

use constants::{HELD_WORDS, QUEUE_WORDS, SENT_WORDS};
use records::Stream;
use udx_c_numbers::{FlatStep, FlatStream, FlatTotals, broken_step};

pub fn udx_close(
    stream: FlatStream,
    totals: FlatTotals,
    sent: &[u64; SENT_WORDS],
    held: &[u64; HELD_WORDS],
    queue: &mut [u64; QUEUE_WORDS],
    outgoing: &[u8],
    incoming: &[u8],
    headers: &mut [u8],
) -> FlatStep
    ensures { Crosses (Answers model.close) stream totals
        (lent sent.now held.now queue.old outgoing.now
        incoming.now headers.old)
        result
        (lent sent.now held.now queue.new outgoing.now
        incoming.now headers.new) }
{
    let Ok(s) = Stream::try_from(stream) else {
        return broken_step(stream, totals);
    };
    udx::close::close(
        s,
        totals.into(),
        sent,
        held,
        queue,
        outgoing,
        incoming,
        headers,
    )
    .into()
}
