// The records that C's numbers represent.
ghost use Rattle.std.specs.Prelude.{◌≡◌};
ghost use Rattle.udx_c_numbers.specs.Bytes.{broken_if, is_strange};
ghost use Rattle.udx_c_numbers.specs.Flat.{ids_of, sender_of, receiver_of, queue_of, timing_of, clocks_of, stream_of, totals_of};

use crate::ending::ending_of;
use crate::structs::{
    FlatClocks, FlatIds, FlatQueue, FlatReceiver, FlatSender, FlatStream, FlatTiming, FlatTotals,
};
use error::Refusal;
use records::{Clocks, Deadline, Ids, Queue, Receiver, Sender, Stream, Timing, Totals};
use rtt::{Nanos, Rtt};

impl From<FlatIds> for Ids {
    ghost from_gives = { λ f r. r ≡ ids_of f };

    #[tactic(auto, unfolding(crate::specs::Flat::ids_of))]
    fn from(f: FlatIds) -> Ids {
        Ids {
            local: f.local,
            remote: f.remote,
            segments: f.segments,
        }
    }
}

impl From<FlatSender> for Sender {
    ghost from_gives = { λ f r. r ≡ sender_of f };

    #[tactic(auto, unfolding(crate::specs::Flat::sender_of))]
    fn from(f: FlatSender) -> Sender {
        Sender {
            seq: f.seq,
            remote_acked: f.remote_acked,
            largest_ack: f.largest_ack,
            inflight: f.inflight,
            cwnd: f.cwnd,
        }
    }
}

impl From<FlatReceiver> for Receiver {
    ghost from_gives = { λ f r. r ≡ receiver_of f };

    #[tactic(auto, unfolding(crate::specs::Flat::receiver_of))]
    fn from(f: FlatReceiver) -> Receiver {
        Receiver {
            ack: f.ack,
            read_cursor: f.read_cursor,
            top: f.top,
        }
    }
}

impl From<FlatQueue> for Queue {
    ghost from_gives = { λ f r. r ≡ queue_of f };

    #[tactic(auto, unfolding(crate::specs::Flat::queue_of))]
    fn from(f: FlatQueue) -> Queue {
        Queue {
            count: f.count,
            left: f.left,
            states: f.states,
            gone: f.gone,
        }
    }
}

impl From<FlatTiming> for Timing {
    ghost from_gives = { λ f r. r ≡ timing_of f };

    #[tactic(auto, unfolding(crate::specs::Flat::timing_of))]
    fn from(f: FlatTiming) -> Timing {
        let rtt = Rtt {
            srtt: Nanos(f.srtt),
            rttvar: Nanos(f.rttvar),
            rto: Nanos(f.rto),
        };
        Timing {
            rtt,
            deadline: Deadline(Nanos(f.deadline)),
        }
    }
}

impl From<FlatClocks> for Clocks {
    ghost from_gives = { λ f r. r ≡ clocks_of f };

    #[tactic(auto, unfolding(crate::specs::Flat::clocks_of))]
    fn from(f: FlatClocks) -> Clocks {
        Clocks {
            last: Nanos(f.last),
            drive: Nanos(f.drive),
        }
    }
}

// The stream that any numbers represent, an invalid byte of its ending read as in ending_of.
#[tactic(auto, unfolding(crate::specs::Flat::stream_of))]
pub fn stream_of(f: FlatStream) -> Stream
    ensures { result ≡ stream_of f }
{
    Stream {
        ids: f.ids.into(),
        sender: f.sender.into(),
        receiver: f.receiver.into(),
        queue: f.queue.into(),
        timing: f.timing.into(),
        clocks: f.clocks.into(),
        ending: ending_of(f.ending),
    }
}

impl TryFrom<FlatStream> for Stream {
    type Error = Refusal;

    ghost try_from_gives = { λ f r. r ≡ broken_if (is_strange f.ending) (stream_of f) };

    #[tactic(auto, unfolding(crate::specs::Flat::stream_of))]
    fn try_from(f: FlatStream) -> Result<Stream, Refusal> {
        Ok(Stream {
            ending: f.ending.try_into()?,
            ..stream_of(f)
        })
    }
}

impl From<FlatTotals> for Totals {
    ghost from_gives = { λ f r. r ≡ totals_of f };

    #[tactic(auto, unfolding(crate::specs::Flat::totals_of))]
    fn from(f: FlatTotals) -> Totals {
        Totals {
            tx_packets: f.tx_packets,
            tx_bytes: f.tx_bytes,
            rx_packets: f.rx_packets,
            rx_bytes: f.rx_bytes,
            inflight_packets: f.inflight_packets,
            inflight_bytes: f.inflight_bytes,
        }
    }
}
