// The refusals of a close: 1, 5, 6 and 13.
ghost use Rattle.std.specs.Prelude.{◌≡◌};
ghost use Rattle.udx_refusals.specs.Verdicts.{close_verdict};

use constants::STATE_PACKETS;
use error::Refusal;
use records::Stream;

// Refusals 1, 5, 6 and 13, in this order. With nothing left to take no state packet is gone, so `states` is the number queued.
#[tactic(auto, unfolding(crate::specs::Verdicts::close_verdict))]
pub fn close_verdict(broken: bool, s: Stream) -> Result<(), Refusal>
    ensures { result ≡ close_verdict broken s }
{
    if broken {
        return Err(Refusal::BrokenRecords);
    }
    if s.ending.ended {
        return Err(Refusal::AfterDone);
    }
    if 0 < s.queue.left {
        return Err(Refusal::BatchesLeft);
    }
    if STATE_PACKETS - 1 <= s.queue.states {
        return Err(Refusal::StateQueueFull);
    }
    Ok(())
}
