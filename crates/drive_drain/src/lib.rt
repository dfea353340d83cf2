// How a drive starts and finishes: whether a stream with an error is drained (closed_and_drained), and what the drive leaves to take.
#![tactic(auto)]

ghost use Rattle.std.specs.Prelude.{◌≡◌};
ghost use Rattle.drive_drain.specs.Draining.{AnyStored, Drains, LeavesToTake};
ghost use Rattle.model.specs.Sending.{is_set};

use constants::SENT_WORDS;
use error::UdxError;
use records::{Queue, Sender};

// Whether a packet is stored: !outgoing.is_empty().
pub fn any_stored(s: Sender, sent: &[u64; SENT_WORDS]) -> bool
    ensures { AnyStored s sent.now result }
{
    // A loop, since no proof was found for `any` over the numbers.
    for n in s.remote_acked..s.seq {
        if records::find_sent(sent, n).is_some() {
            return true;
        }
    }
    false
}

// Whether an error is set, whichever: a function of its own, so that its contract refuses a test that passes over one.
fn is_set(error: Option<UdxError>) -> bool
    ensures { result ≡ is_set error }
{
    error.is_some()
}

// Whether an error is set and queue and outgoing store are empty. Nothing is left to take, so the queue has `count` entries.
pub fn drained(error: Option<UdxError>, q: Queue, s: Sender, sent: &[u64; SENT_WORDS]) -> bool
    requires { q.left ≡ 0 }
    ensures { Drains error q s sent.now result }
{
    is_set(error) && q.count == 0 && !any_stored(s, sent)
}

// Leaves everything queued to take.
pub fn left_to_take(q: Queue) -> Queue
    requires { q.left ≡ 0 }
    ensures { LeavesToTake q result }
{
    Queue { left: q.count, ..q }
}
