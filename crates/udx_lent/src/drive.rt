// Drive, with the totals lent.
ghost use Rattle.model.specs.Driving as model;
ghost use Rattle.rules_lent.specs.Broken.{lent};
ghost use Rattle.udx.specs.Agree.{Answers};
ghost use Rattle.udx_lent.specs.Whole.{whole};

use crate::Answer;
use constants::{HELD_WORDS, QUEUE_WORDS, SENT_WORDS};
use records::{Stream, Totals};
use rtt::Nanos;

pub fn drive(
    t: &mut Totals,
    s: Stream,
    sent: &mut [u64; SENT_WORDS],
    held: &[u64; HELD_WORDS],
    queue: &mut [u64; QUEUE_WORDS],
    outgoing: &[u8],
    incoming: &[u8],
    headers: &mut [u8],
    clock: Nanos,
) -> Answer
    ensures { Answers (model.drive clock.0) s t.old
        (lent sent.old held.now queue.old outgoing.now
        incoming.now headers.old)
        (whole result t.new)
        (lent sent.new held.now queue.new outgoing.now incoming.now
        headers.new) }
{
    let r = udx::drive::drive(s, *t, sent, held, queue, outgoing, incoming, headers, clock);
    *t = r.totals;
    r.into()
}
