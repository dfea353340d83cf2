// Write, with the totals lent.
ghost use Rattle.model.specs.Sending as model;
ghost use Rattle.rules_lent.specs.Broken.{lent};
ghost use Rattle.udx.specs.Agree.{Answers};
ghost use Rattle.udx_lent.specs.Whole.{whole};

use crate::Answer;
use constants::{HELD_WORDS, QUEUE_WORDS, SENT_WORDS};
use records::{Stream, Totals};

pub fn write(
    t: &mut Totals,
    s: Stream,
    sent: &mut [u64; SENT_WORDS],
    held: &[u64; HELD_WORDS],
    queue: &mut [u64; QUEUE_WORDS],
    outgoing: &mut [u8],
    incoming: &[u8],
    headers: &[u8],
    bytes: &[u8],
) -> Answer
    ensures { Answers (model.write bytes.now) s t.old
        (lent sent.old held.now queue.old outgoing.old
        incoming.now headers.now)
        (whole result t.new)
        (lent sent.new held.now queue.new outgoing.new incoming.now
        headers.now) }
{
    let r = udx::write::write(s, *t, sent, held, queue, outgoing, incoming, headers, bytes);
    *t = r.totals;
    r.into()
}
