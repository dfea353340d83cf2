// Opening a stream (UdxStream::connect).
ghost use Rattle.std.specs.Prelude.{◌≡◌};
ghost use Rattle.records.specs.Open.{Opens, fresh_stream, refused_open, stores_test};

use crate::{
    Clocks, Deadline, Ending, Ids, Queue, Receiver, Sender, Stream, StreamState, Timing, Totals,
};
use constants::{
    CLOCK_END, CWND_FRESH, HEADER_STORE, INCOMING_STORE, MAX_SEGMENTS, OUTGOING_STORE, RTO_MIN,
};
use error::{Outcome, Refusal};
use rtt::{Nanos, Rtt};

// What open answers. With a refusal there are a stream and totals as well, since C gets them either way.
#[derive(Clone, Copy)]
pub struct Opened {
    pub outcome: Result<Outcome, Refusal>,
    pub stream: Stream,
    pub totals: Totals,
}

// A stream before its first call, whatever the words and the stores hold. With a ceiling of 0, every call refuses it.
#[tactic(auto, unfolding(crate::specs::Open::fresh_stream))]
fn fresh_stream(local: u32, remote: u32, segments: u8, clock: Nanos) -> Stream
    ensures { result ≡ fresh_stream local remote segments clock.0 }
{
    Stream {
        ids: Ids {
            local,
            remote,
            segments,
        },
        sender: Sender {
            seq: 0,
            remote_acked: 0,
            largest_ack: 0,
            inflight: 0,
            cwnd: CWND_FRESH,
        },
        receiver: Receiver::default(),
        queue: Queue::default(),
        timing: Timing {
            rtt: Rtt::new(),
            deadline: Deadline(Nanos(clock.0.wrapping_add(RTO_MIN))),
        },
        clocks: Clocks {
            last: clock,
            drive: clock,
        },
        ending: Ending {
            error: None,
            state: StreamState::Open,
            ended: false,
        },
    }
}

// A refused open returns a stream that every call refuses with 1 (look shows nothing): its segment ceiling is 0.
fn refused_open(why: Refusal) -> Opened
    ensures { result ≡ refused_open why }
{
    Opened {
        outcome: Err(why),
        stream: fresh_stream(0, 0, 0, Nanos(0)),
        totals: Totals::default(),
    }
}

// "A lent store has another length than above"
pub fn stores_differ(outgoing: &[u8], incoming: &[u8], headers: &[u8]) -> bool
    ensures { result ≡ stores_test outgoing.now incoming.now headers.now }
{
    outgoing.len() != OUTGOING_STORE
        || incoming.len() != INCOMING_STORE
        || headers.len() != HEADER_STORE
}

// Opens a stream over lent stores. Only their lengths are checked; the contents of stores and words do not matter.
#[tactic(auto, unfolding(crate::specs::Open::open_why))]
pub fn open(
    local: u32,
    remote: u32,
    segments: u8,
    clock: Nanos,
    outgoing: &[u8],
    incoming: &[u8],
    headers: &[u8],
) -> Opened
    ensures { Opens local remote segments clock.0 outgoing.now incoming.now
        headers.now result }
{
    if stores_differ(outgoing, incoming, headers) {
        return refused_open(Refusal::BrokenRecords);
    }
    if segments < 1 || MAX_SEGMENTS < segments {
        return refused_open(Refusal::SegmentCeiling);
    }
    if Nanos(CLOCK_END) <= clock {
        return refused_open(Refusal::BadClock);
    }
    Opened {
        outcome: Ok(Outcome::Ready),
        stream: fresh_stream(local, remote, segments, clock),
        totals: Totals::default(),
    }
}
