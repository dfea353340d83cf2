// Close (terminate with ConnectionReset).
ghost use Rattle.model.specs.Sending as model;
ghost use Rattle.rules_lent.specs.Broken.{lent};
ghost use Rattle.udx.specs.Agree.{Answers};

use constants::{HELD_WORDS, QUEUE_WORDS, SENT_WORDS};
use error::UdxError;
use records::{Stream, Totals};
use rules_lent::broken;
use udx_refusals::close_verdict;
use udx_steps::{Step, ready_step, refused};

// "it replaces any earlier error and queues a state packet each time"
pub fn close(
    s: Stream,
    t: Totals,
    sent: &[u64; SENT_WORDS],
    held: &[u64; HELD_WORDS],
    queue: &mut [u64; QUEUE_WORDS],
    outgoing: &[u8],
    incoming: &[u8],
    headers: &mut [u8],
) -> Step
    ensures { Answers model.close s t
        (lent sent.now held.now queue.old outgoing.now
        incoming.now headers.old)
        result
        (lent sent.now held.now queue.new outgoing.now
        incoming.now headers.new) }
{
    let one = broken(s, t, sent, held, queue, outgoing, incoming, headers);
    if let Err(why) = close_verdict(one, s) {
        return refused(s, t, why);
    }
    ready_step(close_state::terminate(s, t, UdxError::ConnectionReset, queue, headers))
}
