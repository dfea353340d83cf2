// Drive (closed_and_drained, then poll_drive).
ghost use Rattle.model.specs.Driving as model;
ghost use Rattle.rules_lent.specs.Broken.{lent};
ghost use Rattle.udx.specs.Agree.{Answers};

use constants::{HELD_WORDS, QUEUE_WORDS, SENT_WORDS};
use records::{Stream, Totals};
use rtt::Nanos;
use rules_lent::broken;
use udx_refusals::early_verdict;
use udx_steps::{Step, done_step, ready_step, refused};

#[tactic(auto, unfolding(udx_refusals::specs::Verdicts::early_verdict))]
pub fn drive(
    s: Stream,
    t: Totals,
    sent: &mut [u64; SENT_WORDS],
    held: &[u64; HELD_WORDS],
    queue: &mut [u64; QUEUE_WORDS],
    outgoing: &[u8],
    incoming: &[u8],
    headers: &mut [u8],
    clock: Nanos,
) -> Step
    ensures { Answers (model.drive clock.0) s t
        (lent sent.old held.now queue.old outgoing.now
        incoming.now headers.old)
        result
        (lent sent.new held.now queue.new outgoing.now incoming.now
        headers.new) }
{
    let one = broken(s, t, sent, held, queue, outgoing, incoming, headers);
    if let Err(why) = early_verdict(one, s, clock) {
        return refused(s, t, why);
    }
    if drive_drain::drained(s.ending.error, s.queue, s.sender, sent) {
        return done_step(s, t, clock);
    }
    let p = drive_all::poll_drive(s, t, clock, sent, queue, headers);
    ready_step(p)
}
