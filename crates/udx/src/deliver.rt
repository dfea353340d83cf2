// Deliver (process_packet, then handle_incoming).
ghost use Rattle.model.specs.Receiving as model;
ghost use Rattle.rules_lent.specs.Broken.{lent};
ghost use Rattle.udx.specs.Agree.{Answers};

use constants::{HELD_WORDS, QUEUE_WORDS, SENT_WORDS, UDX_HEADER_SIZE};
use records::{Stream, Totals};
use rtt::Nanos;
use rules_lent::broken;
use udx_refusals::delivery_verdict;
use udx_steps::{Step, ready_step, refused};

#[tactic(auto, unfolding(udx_refusals::specs::Verdicts::delivery_verdict, packet::specs::Header::decoded))]
pub fn deliver(
    s: Stream,
    t: Totals,
    sent: &mut [u64; SENT_WORDS],
    held: &mut [u64; HELD_WORDS],
    queue: &mut [u64; QUEUE_WORDS],
    outgoing: &[u8],
    incoming: &mut [u8],
    headers: &mut [u8],
    datagram: &[u8],
    clock: Nanos,
) -> Step
    ensures { Answers (model.deliver datagram.now clock.0) s t
        (lent sent.old held.old queue.old outgoing.now
        incoming.old headers.old)
        result
        (lent sent.new held.new queue.new outgoing.now incoming.new
        headers.new) }
{
    let one = broken(s, t, sent, held, queue, outgoing, incoming, headers);
    let h = match delivery_verdict(one, s, clock, datagram) {
        Err(why) => return refused(s, t, why),
        Ok(h) => h,
    };
    let payload = &datagram[UDX_HEADER_SIZE..];
    let d = deliver_all::handle_incoming(
        s, t, clock, h, sent, held, queue, incoming, headers, payload,
    );
    ready_step(d)
}
