// The step of a drive that is done.
ghost use Rattle.std.specs.Prelude.{◌≡◌};
ghost use Rattle.udx_steps.specs.Drive.{done_step};

use crate::step::{Step, bare_step};
use error::Outcome;
use records::{Ending, Stream, Totals};
use rtt::Nanos;

// "the answer is done and the stream has ended": an accepted drive, which settles nothing.
pub fn done_step(s: Stream, t: Totals, clock: Nanos) -> Step
    ensures { result ≡ done_step clock.0 s t }
{
    let ending = Ending {
        ended: true,
        ..s.ending
    };
    let stream = Stream {
        ending,
        ..drive_all::clocked(s, clock)
    };
    bare_step(stream, t, Ok(Outcome::Done))
}
