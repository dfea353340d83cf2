// Read, with the totals lent.
ghost use Rattle.rules_lent.specs.Broken.{lent};
ghost use Rattle.udx.specs.Read.{Gives};
ghost use Rattle.udx_lent.specs.Whole.{whole};

use crate::Answer;
use constants::{HELD_WORDS, QUEUE_WORDS, SENT_WORDS};
use records::{Stream, Totals};

pub fn read(
    t: &mut Totals,
    s: Stream,
    sent: &[u64; SENT_WORDS],
    held: &mut [u64; HELD_WORDS],
    queue: &[u64; QUEUE_WORDS],
    outgoing: &[u8],
    incoming: &[u8],
    headers: &[u8],
    buf: &mut [u8],
) -> Answer
    ensures { Gives s t.old
        (lent sent.now held.old queue.now outgoing.now
        incoming.now headers.now)
        buf.old (whole result t.new)
        (lent sent.now held.new queue.now outgoing.now
        incoming.now headers.now)
        buf.new }
{
    let r = udx::read::read(s, *t, sent, held, queue, outgoing, incoming, headers, buf);
    *t = r.totals;
    r.into()
}
