// The memory layout of the structs, as this archive reads and writes them: a binding in any language can compare it with its own.
ghost use Rattle.std.specs.Prelude.{◌≡◌, ◌++◌, replicate};
ghost use Rattle.udx_c.specs.Layout.{stream_fields, totals_fields, step_fields, count_from};

use udx_c_numbers::{
    FlatClocks, FlatEnding, FlatIds, FlatQueue, FlatReceiver, FlatSender, FlatStep, FlatStream,
    FlatTiming, FlatTotals,
};

#[repr(C)]
#[derive(Clone, Copy)]
pub struct Numbers {
    pub n: [u64; 24],
}

// The fields of a stream in order, as received.
pub fn udx_layout_stream(s: FlatStream) -> Numbers
    ensures { result.n ≡ stream_fields s }
{
    let i = s.ids;
    let a = s.sender;
    let b = s.receiver;
    let q = s.queue;
    let t = s.timing;
    let c = s.clocks;
    let e = s.ending;
    Numbers {
        n: [
            i.local as u64,
            i.remote as u64,
            i.segments as u64,
            a.seq as u64,
            a.remote_acked as u64,
            a.largest_ack as u64,
            a.inflight as u64,
            a.cwnd as u64,
            b.ack as u64,
            b.read_cursor as u64,
            b.top as u64,
            q.count as u64,
            q.left as u64,
            q.states as u64,
            q.gone as u64,
            t.srtt,
            t.rttvar,
            t.rto,
            t.deadline,
            c.last,
            c.drive,
            e.error as u64,
            e.state as u64,
            e.ended as u64,
        ],
    }
}

// The same for totals, after a stream; the numbers past them are 0.
pub fn udx_layout_totals(s: FlatStream, t: FlatTotals) -> Numbers
    ensures { result.n ≡ totals_fields t ++ replicate 18 0 }
{
    // One by one: with a copy of a slice the archive would need memcpy of the C library.
    let mut n = [0; 24];
    n[0] = t.tx_packets;
    n[1] = t.tx_bytes;
    n[2] = t.rx_packets;
    n[3] = t.rx_bytes;
    n[4] = t.inflight_packets;
    n[5] = t.inflight_bytes;
    Numbers { n }
}

fn counted_ids() -> FlatIds
    ensures { result ≡ record { local = 1; remote = 2; segments = 3 } }
{
    FlatIds {
        local: 1,
        remote: 2,
        segments: 3,
    }
}

fn counted_sender() -> FlatSender
    ensures { result ≡ record { seq = 4; remote_acked = 5; largest_ack = 6; inflight = 7; cwnd = 8 } }
{
    FlatSender {
        seq: 4,
        remote_acked: 5,
        largest_ack: 6,
        inflight: 7,
        cwnd: 8,
    }
}

fn counted_stream() -> FlatStream
    ensures { stream_fields result ≡ count_from 24 1 }
{
    let ids = counted_ids();
    let sender = counted_sender();
    let receiver = FlatReceiver {
        ack: 9,
        read_cursor: 10,
        top: 11,
    };
    let queue = FlatQueue {
        count: 12,
        left: 13,
        states: 14,
        gone: 15,
    };
    let timing = FlatTiming {
        srtt: 16,
        rttvar: 17,
        rto: 18,
        deadline: 19,
    };
    let clocks = FlatClocks {
        last: 20,
        drive: 21,
    };
    let ending = FlatEnding {
        error: 22,
        state: 23,
        ended: 24,
    };
    FlatStream {
        ids,
        sender,
        receiver,
        queue,
        timing,
        clocks,
        ending,
    }
}

// A step whose fields are 1, 2, 3 and so on, in order.
pub fn udx_layout_step() -> FlatStep
    ensures { step_fields result ≡ count_from 34 1 }
{
    let stream = counted_stream();
    let totals = FlatTotals {
        tx_packets: 25,
        tx_bytes: 26,
        rx_packets: 27,
        rx_bytes: 28,
        inflight_packets: 29,
        inflight_bytes: 30,
    };
    FlatStep {
        stream,
        totals,
        count: 31,
        segment: 32,
        outcome: 33,
        refusal: 34,
    }
}
