// The step of a write: the bytes accepted.
ghost use Rattle.std.specs.Prelude.{◌≡◌};
ghost use Rattle.write_piece.specs.Piece.{with_outbox};
ghost use Rattle.udx_steps.specs.Write.{outbox_of, outcome_of, written_step};

use crate::step::{Step, bare_step};
use error::Outcome;
use records::{Stream, Totals};
use write_all::{Outbox, Written};

// "The answer is the bytes accepted, or waiting when none went."
fn write_outcome(empty: bool, count: usize) -> Outcome
    ensures { result ≡ outcome_of empty count }
{
    if empty || 0 < count {
        Outcome::Ready
    } else {
        Outcome::Waiting
    }
}

// The parts of a stream that pieces change.
pub fn outbox(s: Stream, totals: Totals) -> Outbox
    ensures { result ≡ outbox_of s totals }
{
    Outbox {
        sender: s.sender,
        queue: s.queue,
        totals,
    }
}

fn with_outbox(s: Stream, o: Outbox) -> Stream
    ensures { result ≡ with_outbox o s }
{
    Stream {
        sender: o.sender,
        queue: o.queue,
        ..s
    }
}

// The step of a write, after its pieces went.
pub fn written(s: Stream, w: Written, empty: bool) -> Step
    ensures { result ≡ written_step s w empty }
{
    let stream = with_outbox(s, w.outbox);
    Step {
        count: w.count,
        ..bare_step(stream, w.outbox.totals, Ok(write_outcome(empty, w.count)))
    }
}
