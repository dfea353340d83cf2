// Take (poll_transmit, to_transmit).
ghost use Rattle.rules_lent.specs.Broken.{lent};
ghost use Rattle.udx.specs.Take.{Hands};

use constants::{HELD_WORDS, QUEUE_WORDS, SENT_WORDS};
use records::{Stream, Totals};
use rules_lent::broken;
use take_next::next_batch;
use udx_refusals::take_verdict;
use udx_steps::{Step, nothing, refused, taken_step};

pub fn take(
    s: Stream,
    t: Totals,
    sent: &mut [u64; SENT_WORDS],
    held: &[u64; HELD_WORDS],
    queue: &[u64; QUEUE_WORDS],
    outgoing: &[u8],
    incoming: &[u8],
    headers: &[u8],
    buf: &mut [u8],
) -> Step
    ensures { Hands s t
        (lent sent.old held.now queue.now outgoing.now
        incoming.now headers.now)
        buf.old result
        (lent sent.new held.now queue.now outgoing.now
        incoming.now headers.now)
        buf.new }
{
    let one = broken(s, t, sent, held, queue, outgoing, incoming, headers);
    if let Err(why) = take_verdict(one, buf.len()) {
        return refused(s, t, why);
    }
    if s.queue.left == 0 {
        return nothing(s, t);
    }
    let h = next_batch(
        s.queue,
        s.sender,
        s.ids.segments,
        s.clocks.drive,
        sent,
        queue,
        outgoing,
        headers,
        buf,
    );
    taken_step(s, t, h)
}
