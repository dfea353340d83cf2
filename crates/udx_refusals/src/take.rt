// The refusals of a take: 1 and 2.
ghost use Rattle.std.specs.Prelude.{◌≡◌};
ghost use Rattle.udx_refusals.specs.Verdicts.{take_verdict};

use constants::TAKE_ROOM;
use error::Refusal;

// Refusals 1 and 2, in this order.
#[tactic(auto, unfolding(crate::specs::Verdicts::take_verdict))]
pub fn take_verdict(broken: bool, room: usize) -> Result<(), Refusal>
    ensures { result ≡ take_verdict broken room }
{
    if broken {
        return Err(Refusal::BrokenRecords);
    }
    if room < TAKE_ROOM {
        return Err(Refusal::ShortBuffer);
    }
    Ok(())
}
