// Write for C.
ghost use Rattle.model.specs.Sending as model;
ghost use Rattle.rules_lent.specs.Broken.{lent};
ghost use Rattle.udx.specs.Agree.{Answers};
ghost use Rattle.udx_c.specs.Crosses.{Crosses};

use constants::{HELD_WORDS, QUEUE_WORDS, SENT_WORDS};
use records::Stream;
use udx_c_numbers::{FlatStep, FlatStream, FlatTotals, broken_step};

pub fn udx_write(
    stream: FlatStream,
    totals: FlatTotals,
    sent: &mut [u64; SENT_WORDS],
    held: &[u64; HELD_WORDS],
    queue: &mut [u64; QUEUE_WORDS],
    outgoing: &mut [u8],
    incoming: &[u8],
    headers: &[u8],
    bytes: &[u8],
) -> FlatStep
    ensures { Crosses (Answers (model.write bytes.now)) stream totals
        (lent sent.old held.now queue.old outgoing.old
        incoming.now headers.now)
        result
        (lent sent.new held.now queue.new outgoing.new incoming.now
        headers.now) }
{
    let Ok(s) = Stream::try_from(stream) else {
        return broken_step(stream, totals);
    };
    udx::write::write(
        s,
        totals.into(),
        sent,
        held,
        queue,
        outgoing,
        incoming,
        headers,
        bytes,
    )
    .into()
}
