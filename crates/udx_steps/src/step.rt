// What a call answers.
ghost use Rattle.std.specs.Prelude.{◌≡◌, None};
ghost use Rattle.udx_steps.specs.Steps.{ready_step, refused_step};

use error::{Outcome, Refusal};
use records::{Stream, StreamAndTotals, Totals};

// What a call answers, with the stream and the totals after it.
#[derive(Clone, Copy)]
pub struct Step {
    pub stream: Stream,
    pub totals: Totals,
    pub outcome: Result<Outcome, Refusal>,
    // Bytes accepted, taken or put.
    pub count: usize,
    // A batch's segment size, if it has one.
    pub segment: Option<usize>,
}

// A step that counts no bytes and has no segment size: the whole of most steps, and the start of the others.
pub(crate) fn bare_step(stream: Stream, totals: Totals, outcome: Result<Outcome, Refusal>) -> Step
    ensures { result ≡ record { stream = stream; totals = totals; outcome = outcome; count = 0; segment = None } }
{
    Step {
        stream,
        totals,
        outcome,
        count: 0,
        segment: None,
    }
}

// What an accepted delivery, a drive that is not done and a close answer: ok, and the stream and totals that their parts left.
pub fn ready_step(x: StreamAndTotals) -> Step
    ensures { result ≡ ready_step x }
{
    bare_step(x.stream, x.totals, Ok(Outcome::Ready))
}

// "Each returns its number and changes nothing"
pub fn refused(stream: Stream, totals: Totals, why: Refusal) -> Step
    ensures { result ≡ refused_step stream totals why }
{
    bare_step(stream, totals, Err(why))
}
