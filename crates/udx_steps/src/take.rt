// The steps of a take: none, or the batch handed out.
ghost use Rattle.std.specs.Prelude.{◌≡◌};
ghost use Rattle.udx_steps.specs.Take.{nothing_step, taken_step};

use crate::step::{Step, bare_step};
use error::Outcome;
use records::{Stream, Totals};
use take_next::Handed;

// "None when no batch of the last drive is left"
pub fn nothing(stream: Stream, totals: Totals) -> Step
    ensures { result ≡ nothing_step stream totals }
{
    bare_step(stream, totals, Ok(Outcome::Nothing))
}

// The step of a take that handed out a batch.
pub fn taken_step(s: Stream, totals: Totals, h: Handed) -> Step
    ensures { result ≡ taken_step s totals h }
{
    let stream = Stream {
        queue: h.queue,
        ..s
    };
    Step {
        count: h.count,
        segment: h.segment,
        ..bare_step(stream, totals, Ok(Outcome::Ready))
    }
}
