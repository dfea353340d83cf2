// Write (poll_write over send_data_packet).
ghost use Rattle.model.specs.Sending as model;
ghost use Rattle.rules_lent.specs.Broken.{lent};
ghost use Rattle.udx.specs.Agree.{Answers};

use constants::{HELD_WORDS, QUEUE_WORDS, SENT_WORDS};
use records::{Stream, Totals};
use rules_lent::broken;
use udx_refusals::write_verdict;
use udx_steps::{Step, outbox, refused, written};

pub fn write(
    s: Stream,
    t: Totals,
    sent: &mut [u64; SENT_WORDS],
    held: &[u64; HELD_WORDS],
    queue: &mut [u64; QUEUE_WORDS],
    outgoing: &mut [u8],
    incoming: &[u8],
    headers: &[u8],
    bytes: &[u8],
) -> Step
    ensures { Answers (model.write bytes.now) s t
        (lent sent.old held.now queue.old outgoing.old
        incoming.now headers.now)
        result
        (lent sent.new held.now queue.new outgoing.new incoming.now
        headers.now) }
{
    let one = broken(s, t, sent, held, queue, outgoing, incoming, headers);
    let empty = bytes.is_empty();
    if let Err(why) = write_verdict(one, s, empty) {
        return refused(s, t, why);
    }
    let o = outbox(s, t);
    let w = write_all::write_pieces(
        o,
        s.ids.remote,
        s.receiver.ack,
        sent,
        queue,
        outgoing,
        bytes,
    );
    written(s, w, empty)
}
