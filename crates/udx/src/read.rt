// Read (read_next, poll_read).
ghost use Rattle.rules_lent.specs.Broken.{lent};
ghost use Rattle.udx.specs.Read.{Gives};

use constants::{HELD_WORDS, QUEUE_WORDS, SENT_WORDS};
use error::Refusal;
use read_bytes::Read;
use records::{Stream, Totals};
use rules_lent::broken;
use udx_steps::{Step, read_step, refused};

pub fn read(
    s: Stream,
    t: Totals,
    sent: &[u64; SENT_WORDS],
    held: &mut [u64; HELD_WORDS],
    queue: &[u64; QUEUE_WORDS],
    outgoing: &[u8],
    incoming: &[u8],
    headers: &[u8],
    buf: &mut [u8],
) -> Step
    ensures { Gives s t
        (lent sent.now held.old queue.now outgoing.now
        incoming.now headers.now)
        buf.old result
        (lent sent.now held.new queue.now outgoing.now
        incoming.now headers.now)
        buf.new }
{
    if broken(s, t, sent, held, queue, outgoing, incoming, headers) {
        return refused(s, t, Refusal::BrokenRecords);
    }
    let a = read_bytes::read_next(s.receiver, held, incoming, buf);
    read_step(s, t, a)
}
