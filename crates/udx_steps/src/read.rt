// The step of a read: ready, the error or waiting, with its new place.
ghost use Rattle.std.specs.Prelude.{◌≡◌};
ghost use Rattle.udx_steps.specs.Read.{outcome_of, read_step};

use crate::step::{Step, bare_step};
use error::{Outcome, Refusal, UdxError, error_or};
use read_bytes::Read;
use records::{Stream, Totals};

// "Ready only if a packet was finished, else the error, else waiting"
fn read_outcome(finished: bool, error: Option<UdxError>) -> Result<Outcome, Refusal>
    ensures { result ≡ outcome_of finished error }
{
    if finished {
        return Ok(Outcome::Ready);
    }
    error_or(error, Outcome::Waiting)
}

// The step of a read: the bytes and the new place are kept, whatever the outcome.
pub fn read_step(s: Stream, totals: Totals, a: Read) -> Step
    ensures { result ≡ read_step s totals a }
{
    let stream = Stream {
        receiver: a.receiver,
        ..s
    };
    Step {
        count: a.count,
        ..bare_step(stream, totals, read_outcome(a.finished, s.ending.error))
    }
}
