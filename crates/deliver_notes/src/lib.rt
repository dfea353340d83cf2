// What every delivery updates, whatever its datagram holds: counts, clock, the largest ack and the window.
#![tactic(auto)]

ghost use Rattle.std.specs.Prelude.{◌≡◌, if◌then◌else◌, nat_lt};
ghost use Rattle.rtt.specs.Window.{grown};
ghost use Rattle.deliver_notes.specs.Numbers.{counted_received, counted_data, clocked_stream, acked_sender};

use records::{Clocks, Sender, Stream, Totals};
use rtt::Nanos;

// "received counts every delivery"
pub fn counted_received(t: Totals) -> Totals
    ensures { result ≡ counted_received t }
{
    Totals {
        rx_packets: t.rx_packets.wrapping_add(1),
        ..t
    }
}

// "and every DATA payload, repeats too"
pub fn counted_data(t: Totals, payload: usize) -> Totals
    ensures { result ≡ counted_data t payload }
{
    Totals {
        rx_bytes: t.rx_bytes.wrapping_add(payload as u64),
        ..t
    }
}

// Sets the clock of the last accepted call.
pub fn clocked(s: Stream, clock: Nanos) -> Stream
    ensures { result ≡ clocked_stream s clock.0 }
{
    Stream {
        clocks: Clocks {
            last: clock,
            ..s.clocks
        },
        ..s
    }
}

// "If the header's ack exceeds remote acked, the window grows"
fn window(cwnd: u32, remote_acked: u32, ack: u32) -> u32
    ensures { result ≡ (if nat_lt remote_acked ack then grown cwnd else cwnd) }
{
    if remote_acked < ack {
        return rtt::grow(cwnd);
    }
    cwnd
}

// Updates the largest ack since the last drive, and the window.
pub fn on_ack(s: Sender, ack: u32) -> Sender
    ensures { result ≡ acked_sender s ack }
{
    Sender {
        largest_ack: s.largest_ack.max(ack),
        cwnd: window(s.cwnd, s.remote_acked, ack),
        ..s
    }
}
