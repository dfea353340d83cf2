// Deliver, with the totals lent.
ghost use Rattle.model.specs.Receiving as model;
ghost use Rattle.rules_lent.specs.Broken.{lent};
ghost use Rattle.udx.specs.Agree.{Answers};
ghost use Rattle.udx_lent.specs.Whole.{whole};

use crate::Answer;
use constants::{HELD_WORDS, QUEUE_WORDS, SENT_WORDS};
use records::{Stream, Totals};
use rtt::Nanos;

pub fn deliver(
    t: &mut Totals,
    s: Stream,
    sent: &mut [u64; SENT_WORDS],
    held: &mut [u64; HELD_WORDS],
    queue: &mut [u64; QUEUE_WORDS],
    outgoing: &[u8],
    incoming: &mut [u8],
    headers: &mut [u8],
    datagram: &[u8],
    clock: Nanos,
) -> Answer
    ensures { Answers (model.deliver datagram.now clock.0) s t.old
        (lent sent.old held.old queue.old outgoing.now
        incoming.old headers.old)
        (whole result t.new)
        (lent sent.new held.new queue.new outgoing.now incoming.new
        headers.new) }
{
    let r = udx::deliver::deliver(
        s, *t, sent, held, queue, outgoing, incoming, headers, datagram, clock,
    );
    *t = r.totals;
    r.into()
}
