// The refusals of a write: 1, 6 and 14 to 17.
ghost use Rattle.std.specs.Prelude.{◌≡◌, ◌&&◌, not, leb};
ghost use Rattle.udx_refusals.specs.Verdicts.{write_verdict};

use constants::SEQ_END;
use error::Refusal;
use records::Stream;

// "A write that isn't empty finds seq at 4,294,967,295."
fn exhausted(empty: bool, seq: u32) -> bool
    ensures { result ≡ (not empty && leb 4_294_967_295 seq) }
{
    !empty && SEQ_END <= seq
}

// Refusals 1, 6, 14 to 16 and 17, in this order.
#[tactic(auto, unfolding(crate::specs::Verdicts::write_verdict))]
pub fn write_verdict(broken: bool, s: Stream, empty: bool) -> Result<(), Refusal>
    ensures { result ≡ write_verdict broken s empty }
{
    if broken {
        return Err(Refusal::BrokenRecords);
    }
    if 0 < s.queue.left {
        return Err(Refusal::BatchesLeft);
    }
    if let Some(met) = s.ending.error {
        return Err(met.into());
    }
    if exhausted(empty, s.sender.seq) {
        return Err(Refusal::SeqExhausted);
    }
    Ok(())
}
