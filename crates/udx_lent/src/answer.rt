// What a call answers, apart from the totals.
ghost use Rattle.std.specs.Prelude.{◌≡◌};

use error::{Outcome, Refusal};
use records::Stream;
use udx::Step;

// What a call answers, with the stream after it: a step without the totals, which are in the record it was lent.
#[derive(Clone, Copy)]
pub struct Answer {
    pub stream: Stream,
    pub outcome: Result<Outcome, Refusal>,
    // Bytes accepted, taken or put.
    pub count: usize,
    // A batch's segment size, if it has one.
    pub segment: Option<usize>,
}

// The rest of a step, once its totals are in the record lent.
impl From<Step> for Answer {
    ghost from_gives = { λ r a. a ≡ record { stream = r.stream; outcome = r.outcome; count = r.count; segment = r.segment } };

    fn from(r: Step) -> Answer {
        Answer {
            stream: r.stream,
            outcome: r.outcome,
            count: r.count,
            segment: r.segment,
        }
    }
}
