// Closing: how a stream ends (StreamState, terminate), and the state packets that tell the other end.
#![tactic(auto)]

ghost use Rattle.std.specs.Prelude.{◌≡◌, ◌<◌, length};
ghost use Rattle.model.specs.Sending.{state_type, close_local, close_remote, failed};
ghost use Rattle.model.specs.Receiving.{remote_ended};
ghost use Rattle.records.specs.Seen.{seen_state};
ghost use Rattle.close_state.specs.State.{
  seen_ending,
  state_header,
  pushed_state,
  counted_state,
  Pushable,
  StateQueued,
  Terminates,
};

use constants::{QUEUE_WORDS, UDX_HEADER_END};
use error::UdxError;
use packet::Header;
use records::{Ending, Entry, Queue, Stream, StreamAndTotals, StreamState, Totals};
use write_piece::create_header;

// What a queued state packet changes besides the words and the bytes.
#[derive(Clone, Copy)]
pub struct Queued {
    pub queue: Queue,
    pub totals: Totals,
}

// StreamState::close_local.
pub fn close_local(s: StreamState) -> StreamState
    ensures { seen_state result ≡ close_local (seen_state s) }
{
    match s {
        StreamState::Open | StreamState::LocalClosed => StreamState::LocalClosed,
        StreamState::RemoteClosed | StreamState::BothClosed => StreamState::BothClosed,
    }
}

// StreamState::close_remote.
pub fn close_remote(s: StreamState) -> StreamState
    ensures { seen_state result ≡ close_remote (seen_state s) }
{
    match s {
        StreamState::Open | StreamState::RemoteClosed => StreamState::RemoteClosed,
        StreamState::LocalClosed | StreamState::BothClosed => StreamState::BothClosed,
    }
}

// terminate, without its state packet: the error replaces any earlier one.
pub fn terminated(x: Ending, why: UdxError) -> Ending
    ensures { seen_ending result ≡ failed why (seen_ending x) }
{
    Ending {
        error: Some(why),
        state: close_local(x.state),
        ..x
    }
}

// The other end has ended.
pub fn remote_ended(x: Ending) -> Ending
    ensures { seen_ending result ≡ remote_ended (seen_ending x) }
{
    Ending {
        state: close_remote(x.state),
        ..x
    }
}

// "State packets carry END once an error is set."
fn state_type(failed: bool) -> u8
    ensures { result ≡ state_type failed }
{
    if failed { UDX_HEADER_END } else { 0 }
}

fn state_header(error: Option<UdxError>, remote: u32, seq: u32, ack: u32) -> Header
    ensures { result ≡ state_header error remote seq ack }
{
    create_header(state_type(error.is_some()), remote, seq, ack)
}

fn pushed_state(q: Queue) -> Queue
    requires { (q.count < 128) × (q.states < 64) }
    ensures { result ≡ pushed_state q }
{
    Queue {
        count: q.count + 1,
        states: q.states + 1,
        ..q
    }
}

fn counted_state(t: Totals) -> Totals
    ensures { result ≡ counted_state t }
{
    Totals {
        tx_packets: t.tx_packets.wrapping_add(1),
        ..t
    }
}

// send_state_packet: the header is frozen at the next place of the header store, with the numbers as they are now. It is given these and no
// Stream: a delivery of data has the new ack before it has the new stream.
pub fn send_state_packet(
    q: Queue,
    t: Totals,
    error: Option<UdxError>,
    remote: u32,
    seq: u32,
    ack: u32,
    queue: &mut [u64; QUEUE_WORDS],
    headers: &mut [u8],
) -> Queued
    requires { Pushable q (length headers.old) }
    ensures { StateQueued q t error remote seq ack queue.old headers.old result
        queue.new headers.new }
{
    let h = state_header(error, remote, seq, ack);
    records_stores::put_header(headers, q.states, h);
    records::put_entry(queue, q.count as usize, Entry::State);
    Queued {
        queue: pushed_state(q),
        totals: counted_state(t),
    }
}

// terminate: the ending comes first, so the state packet carries END.
pub fn terminate(
    s: Stream,
    t: Totals,
    why: UdxError,
    queue: &mut [u64; QUEUE_WORDS],
    headers: &mut [u8],
) -> StreamAndTotals
    requires { Pushable s.queue (length headers.old) }
    ensures { Terminates s t why queue.old headers.old result queue.new headers.new }
{
    let ending = terminated(s.ending, why);
    let k = send_state_packet(
        s.queue,
        t,
        ending.error,
        s.ids.remote,
        s.sender.seq,
        s.receiver.ack,
        queue,
        headers,
    );
    let stream = Stream {
        queue: k.queue,
        ending,
        ..s
    };
    StreamAndTotals {
        stream,
        totals: k.totals,
    }
}
