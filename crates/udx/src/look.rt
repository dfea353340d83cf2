// Look: the next datagram, without taking it.
ghost use Rattle.std.specs.Prelude.{◌≡◌};
ghost use Rattle.rules_lent.specs.Broken.{lent};
ghost use Rattle.udx.specs.Look.{shown_of};

use constants::{HELD_WORDS, QUEUE_WORDS, SENT_WORDS};
use records::{Stream, Totals};
use rules_lent::broken;

// "the next datagram .. is shown as a part of the outgoing store or of the header store, an empty part when nothing is left to take and
// also in place of refusal 1"
#[tactic(auto, using(crate::proofs::LookLaws::look_is, crate::proofs::LookLaws::look_room))]
pub fn look<'a>(
    s: Stream,
    t: Totals,
    sent: &[u64; SENT_WORDS],
    held: &[u64; HELD_WORDS],
    queue: &[u64; QUEUE_WORDS],
    outgoing: &'a [u8],
    incoming: &[u8],
    headers: &'a [u8],
) -> &'a [u8]
    ensures { result.now ≡ shown_of s t
        (lent sent.now held.now queue.now outgoing.now
        incoming.now headers.now) }
{
    if broken(s, t, sent, held, queue, outgoing, incoming, headers) {
        return &outgoing[0..0];
    }
    take_next::look_next(s.queue, s.sender, sent, queue, outgoing, headers)
}
