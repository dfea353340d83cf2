// The retransmission timer: whether it is due, its next deadline, and the window after it.
#![tactic(auto)]

ghost use Rattle.std.specs.Prelude.{◌≡◌, ◌*◌, ◌^◌, ◌≤◌, ◌<◌};
ghost use Rattle.model.specs.Driving as model;
ghost use Rattle.drive_timer.specs.Timer.{timing_seen, IsDue, Shrinks};

use records::{Deadline, Sender, Timing};
use rtt::Nanos;

// "if deadline is at most now and remote acked differs from seq"
pub fn due(t: Timing, clock: Nanos, s: Sender) -> bool
    ensures { IsDue t clock.0 s result }
{
    t.deadline.0 <= clock && s.remote_acked != s.seq
}

// Backs off a due timer: the next deadline is twice the rto away.
pub fn backed_off(t: Timing, clock: Nanos) -> Timing
    requires { (t.rtt.rto.0 ≤ 5 * 2 ^ 60) × (clock.0 < 2 ^ 60) }
    ensures { timing_seen result ≡ model.backed_off clock.0 (timing_seen t) }
{
    Timing {
        deadline: Deadline(Nanos(clock.0 + 2 * t.rtt.rto.0)),
        ..t
    }
}

// After settling: if remote acked moved, the deadline is one rto away. The test is in here, as in the model's `restarted`.
pub fn restarted(t: Timing, clock: Nanos, moved: bool) -> Timing
    requires { (t.rtt.rto.0 ≤ 5 * 2 ^ 60) × (clock.0 < 2 ^ 60) }
    ensures { timing_seen result ≡ model.restarted clock.0 moved (timing_seen t) }
{
    if moved {
        Timing {
            deadline: Deadline(Nanos(clock.0 + t.rtt.rto.0)),
            ..t
        }
    } else {
        t
    }
}

// The sender with its window halved by a due timeout.
pub fn shrunk(s: Sender) -> Sender
    ensures { Shrinks s result }
{
    Sender {
        cwnd: rtt::halve(s.cwnd),
        ..s
    }
}
