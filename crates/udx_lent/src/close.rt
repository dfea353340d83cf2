// Close, with the totals lent.
ghost use Rattle.model.specs.Sending as model;
ghost use Rattle.rules_lent.specs.Broken.{lent};
ghost use Rattle.udx.specs.Agree.{Answers};
ghost use Rattle.udx_lent.specs.Whole.{whole};

use crate::Answer;
use constants::{HELD_WORDS, QUEUE_WORDS, SENT_WORDS};
use records::{Stream, Totals};

pub fn close(
    t: &mut Totals,
    s: Stream,
    sent: &[u64; SENT_WORDS],
    held: &[u64; HELD_WORDS],
    queue: &mut [u64; QUEUE_WORDS],
    outgoing: &[u8],
    incoming: &[u8],
    headers: &mut [u8],
) -> Answer
    ensures { Answers model.close s t.old
        (lent sent.now held.now queue.old outgoing.now
        incoming.now headers.old)
        (whole result t.new)
        (lent sent.now held.now queue.new outgoing.now
        incoming.now headers.new) }
{
    let r = udx::close::close(s, *t, sent, held, queue, outgoing, incoming, headers);
    *t = r.totals;
    r.into()
}
