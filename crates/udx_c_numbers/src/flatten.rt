// Records and steps as C's numbers.
ghost use Rattle.std.specs.Prelude.{◌≡◌};
ghost use Rattle.udx_c_numbers.specs.Flat.{
  flat_ids,
  flat_sender,
  flat_receiver,
  flat_queue,
  flat_timing,
  flat_clocks,
  flat_stream,
  flat_totals,
  flat_step,
  flat_opened,
  broken_step,
};

use crate::ending::{outcome_byte, refusal_byte};
use crate::structs::{
    FlatClocks, FlatIds, FlatQueue, FlatReceiver, FlatSender, FlatStep, FlatStream, FlatTiming,
    FlatTotals,
};
use error::Refusal;
use records::{Clocks, Ids, Opened, Queue, Receiver, Sender, Stream, Timing, Totals};
use udx_steps::Step;

impl From<Ids> for FlatIds {
    ghost from_gives = { λ g r. r ≡ flat_ids g };

    #[tactic(auto, unfolding(crate::specs::Flat::flat_ids))]
    fn from(g: Ids) -> FlatIds {
        FlatIds {
            local: g.local,
            remote: g.remote,
            segments: g.segments,
        }
    }
}

impl From<Sender> for FlatSender {
    ghost from_gives = { λ g r. r ≡ flat_sender g };

    #[tactic(auto, unfolding(crate::specs::Flat::flat_sender))]
    fn from(g: Sender) -> FlatSender {
        FlatSender {
            seq: g.seq,
            remote_acked: g.remote_acked,
            largest_ack: g.largest_ack,
            inflight: g.inflight,
            cwnd: g.cwnd,
        }
    }
}

impl From<Receiver> for FlatReceiver {
    ghost from_gives = { λ g r. r ≡ flat_receiver g };

    #[tactic(auto, unfolding(crate::specs::Flat::flat_receiver))]
    fn from(g: Receiver) -> FlatReceiver {
        FlatReceiver {
            ack: g.ack,
            read_cursor: g.read_cursor,
            top: g.top,
        }
    }
}

impl From<Queue> for FlatQueue {
    ghost from_gives = { λ g r. r ≡ flat_queue g };

    #[tactic(auto, unfolding(crate::specs::Flat::flat_queue))]
    fn from(g: Queue) -> FlatQueue {
        FlatQueue {
            count: g.count,
            left: g.left,
            states: g.states,
            gone: g.gone,
        }
    }
}

impl From<Timing> for FlatTiming {
    ghost from_gives = { λ g r. r ≡ flat_timing g };

    #[tactic(auto, unfolding(crate::specs::Flat::flat_timing))]
    fn from(g: Timing) -> FlatTiming {
        FlatTiming {
            srtt: g.rtt.srtt.0,
            rttvar: g.rtt.rttvar.0,
            rto: g.rtt.rto.0,
            deadline: g.deadline.0.0,
        }
    }
}

impl From<Clocks> for FlatClocks {
    ghost from_gives = { λ g r. r ≡ flat_clocks g };

    #[tactic(auto, unfolding(crate::specs::Flat::flat_clocks))]
    fn from(g: Clocks) -> FlatClocks {
        FlatClocks {
            last: g.last.0,
            drive: g.drive.0,
        }
    }
}

impl From<Stream> for FlatStream {
    ghost from_gives = { λ s r. r ≡ flat_stream s };

    #[tactic(auto, unfolding(crate::specs::Flat::flat_stream))]
    fn from(s: Stream) -> FlatStream {
        FlatStream {
            ids: s.ids.into(),
            sender: s.sender.into(),
            receiver: s.receiver.into(),
            queue: s.queue.into(),
            timing: s.timing.into(),
            clocks: s.clocks.into(),
            ending: s.ending.into(),
        }
    }
}

impl From<Totals> for FlatTotals {
    ghost from_gives = { λ t r. r ≡ flat_totals t };

    #[tactic(auto, unfolding(crate::specs::Flat::flat_totals))]
    fn from(t: Totals) -> FlatTotals {
        FlatTotals {
            tx_packets: t.tx_packets,
            tx_bytes: t.tx_bytes,
            rx_packets: t.rx_packets,
            rx_bytes: t.rx_bytes,
            inflight_packets: t.inflight_packets,
            inflight_bytes: t.inflight_bytes,
        }
    }
}

impl From<Step> for FlatStep {
    ghost from_gives = { λ a r. r ≡ flat_step a };

    #[tactic(auto, unfolding(crate::specs::Flat::flat_step))]
    fn from(a: Step) -> FlatStep {
        FlatStep {
            stream: a.stream.into(),
            totals: a.totals.into(),
            count: a.count,
            segment: a.segment.unwrap_or(0),
            outcome: outcome_byte(a.outcome),
            refusal: refusal_byte(a.outcome),
        }
    }
}

// No trait for Step and Opened: they are in crates of which neither knows the other.
impl From<Opened> for FlatStep {
    ghost from_gives = { λ a r. r ≡ flat_opened a };

    #[tactic(auto, unfolding(crate::specs::Flat::flat_opened))]
    fn from(a: Opened) -> FlatStep {
        FlatStep {
            stream: a.stream.into(),
            totals: a.totals.into(),
            count: 0,
            segment: 0,
            outcome: outcome_byte(a.outcome),
            refusal: refusal_byte(a.outcome),
        }
    }
}

// Refusal 1, with stream and totals as received.
#[tactic(auto, unfolding(crate::specs::Flat::broken_step))]
pub fn broken_step(stream: FlatStream, totals: FlatTotals) -> FlatStep
    ensures { result ≡ broken_step stream totals }
{
    FlatStep {
        stream,
        totals,
        count: 0,
        segment: 0,
        outcome: outcome_byte(Err(Refusal::BrokenRecords)),
        refusal: Refusal::BrokenRecords.number(),
    }
}
