// The two ends of a session.
ghost use Rattle.session_ends.specs.Calls.{stores};
ghost use Rattle.session_turn.specs.Whole.{OpenedEnds};

use crate::running::Ends;
use constants::{HEADER_STORE, INCOMING_STORE, OUTGOING_STORE};
use session_ends::fresh_end;

// "ends 0 (id 1) and 1 (id 2)". The stores are lent one by one: nothing else of an end is read.
pub fn open_ends(
    outgoing_0: &[u8; OUTGOING_STORE],
    incoming_0: &[u8; INCOMING_STORE],
    headers_0: &[u8; HEADER_STORE],
    outgoing_1: &[u8; OUTGOING_STORE],
    incoming_1: &[u8; INCOMING_STORE],
    headers_1: &[u8; HEADER_STORE],
) -> Ends
    ensures { OpenedEnds result
        (stores outgoing_0.now incoming_0.now headers_0.now)
        (stores outgoing_1.now incoming_1.now headers_1.now) }
{
    Ends {
        zero: fresh_end(1, 2, outgoing_0, incoming_0, headers_0),
        one: fresh_end(2, 1, outgoing_1, incoming_1, headers_1),
    }
}
