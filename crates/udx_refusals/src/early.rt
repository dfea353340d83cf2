// The refusals of a drive, which are also the first ones of a delivery.
ghost use Rattle.std.specs.Prelude.{◌≡◌, ◌||◌, ◌^◌, leb, ltb};
ghost use Rattle.udx_refusals.specs.Verdicts.{early_verdict};

use constants::CLOCK_END;
use error::Refusal;
use records::Stream;
use rtt::Nanos;

// "A clock is 2^60 or more, or below that of the last accepted call with one."
fn bad_clock(clock: Nanos, last: Nanos) -> bool
    ensures { result ≡ (leb (2 ^ 60) clock.0 || ltb clock.0 last.0) }
{
    CLOCK_END <= clock.0 || clock < last
}

// Refusals 1, 4, 5 and 6, in this order.
#[tactic(auto, unfolding(crate::specs::Verdicts::early_verdict))]
pub fn early_verdict(broken: bool, s: Stream, clock: Nanos) -> Result<(), Refusal>
    ensures { result ≡ early_verdict broken s clock.0 }
{
    if broken {
        return Err(Refusal::BrokenRecords);
    }
    if bad_clock(clock, s.clocks.last) {
        return Err(Refusal::BadClock);
    }
    if s.ending.ended {
        return Err(Refusal::AfterDone);
    }
    if 0 < s.queue.left {
        return Err(Refusal::BatchesLeft);
    }
    Ok(())
}
