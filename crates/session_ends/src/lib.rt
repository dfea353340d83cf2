// An end of a session: a stream and what its caller keeps for it. An end is taken and returned by value, as the
// engine's calls take and return a stream; the stores are therefore not in it but lent.
#![tactic(auto)]

ghost use Rattle.session_ends.specs.Calls.{stores, Fresh};

mod calls;

pub use calls::{Called, close, deliver, drive, look, read, take, write};
use constants::{HELD_WORDS, QUEUE_WORDS, SENT_WORDS};
use records::{Stream, Totals};
use rtt::Nanos;
use session_kept::Kept;

#[derive(Clone, Copy)]
pub struct SessionEnd {
    pub stream: Stream,
    pub totals: Totals,
    pub sent: [u64; SENT_WORDS],
    pub held: [u64; HELD_WORDS],
    pub queue: [u64; QUEUE_WORDS],
    pub kept: Kept,
}

// "opened at clock 0 with ceiling 10"
pub fn fresh_end(
    local: u32,
    remote: u32,
    outgoing: &[u8],
    incoming: &[u8],
    headers: &[u8],
) -> SessionEnd
    ensures { Fresh local remote (stores outgoing.now incoming.now headers.now)
        result }
{
    let opened = udx::open::open(local, remote, 10, Nanos(0), outgoing, incoming, headers);
    SessionEnd {
        stream: opened.stream,
        totals: opened.totals,
        sent: [0; SENT_WORDS],
        held: [0; HELD_WORDS],
        queue: [0; QUEUE_WORDS],
        kept: session_kept::no_datagrams(),
    }
}
