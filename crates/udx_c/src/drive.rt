// Drive for C.
ghost use Rattle.model.specs.Driving as model_driving;
ghost use Rattle.rules_lent.specs.Broken.{lent};
ghost use Rattle.udx.specs.Agree.{Answers};
ghost use Rattle.udx_c.specs.Crosses.{Crosses};

use constants::{HELD_WORDS, QUEUE_WORDS, SENT_WORDS};
use records::Stream;
use rtt::Nanos;
use udx_c_numbers::{FlatStep, FlatStream, FlatTotals, broken_step};

pub fn udx_drive(
    stream: FlatStream,
    totals: FlatTotals,
    sent: &mut [u64; SENT_WORDS],
    held: &[u64; HELD_WORDS],
    queue: &mut [u64; QUEUE_WORDS],
    outgoing: &[u8],
    incoming: &[u8],
    headers: &mut [u8],
    clock: u64,
) -> FlatStep
    ensures { Crosses (Answers (model_driving.drive clock)) stream totals
        (lent sent.old held.now queue.old outgoing.now
        incoming.now headers.old)
        result
        (lent sent.new held.now queue.new outgoing.now incoming.now
        headers.new) }
{
    let Ok(s) = Stream::try_from(stream) else {
        return broken_step(stream, totals);
    };
    udx::drive::drive(
        s,
        totals.into(),
        sent,
        held,
        queue,
        outgoing,
        incoming,
        headers,
        Nanos(clock),
    )
    .into()
}
