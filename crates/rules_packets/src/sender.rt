// The rules of the stored packets and of the sender's numbers.
ghost use Rattle.std.specs.Prelude.{◌≡◌, ◌+◌, ◌≤◌};
ghost use Rattle.rules_packets.specs.Packets.{ok_sender};
ghost use Rattle.rules_packets.specs.Passes.{in_time, stored_sums};

use constants::{CWND_MAX, SENT_WORDS, STORE_SLOTS, UDX_MTU};
use records::{Sender, Sent, Totals};
use rtt::Nanos;

// The sums over the stored packets.
#[derive(Clone, Copy)]
struct Sums {
    inflight: u64,
    packets: u64,
    bytes: u64,
}

// "neither a time sent .. is past the last clock"
fn in_time(p: Sent, clock: Nanos) -> bool
    ensures { result ≡ in_time p clock.0 }
{
    p.sent_at.is_none_or(|t| t <= clock)
}

// Checks and sums the stored packets, which are from acked to below seq, each in the slot of its number. None: one breaks a rule. Of the
// sender the pass reads only the two numbers.
fn stored(acked: u32, seq: u32, clock: Nanos, sent: &[u64; SENT_WORDS]) -> Option<Sums>
    requires { seq ≤ acked + 32 }
    ensures { result ≡ stored_sums acked seq clock.0 sent.now }
{
    let mut inflight: u64 = 0;
    let mut packets: u64 = 0;
    let mut lengths: u64 = 0;
    for n in acked..seq {
        let p = records::get_sent(sent, n);
        // Not find_sent: no branch here.
        let here = records::is_stored(p, n);
        // "lengths are 21 to 1,400 stored"
        let sized = records::is_sized(sent, n, 21, UDX_MTU);
        // "transmits are at most 7"
        let few = p.transmits <= 7;
        let timely = in_time(p, clock);
        // Joined by `&`, which is faster here than a branch for each.
        if sized & few & timely {
            inflight += if p.waiting { 0 } else { p.length as u64 };
            packets += 1;
            lengths += p.length as u64;
        } else if here {
            return None;
        }
    }
    Some(Sums {
        inflight,
        packets,
        bytes: lengths - 20 * packets,
    })
}

pub fn ok_sender(s: Sender, t: Totals, clock: Nanos, sent: &[u64; SENT_WORDS]) -> bool
    ensures { result ≡ ok_sender s t clock.0 sent.now }
{
    // "remote acked ≤ seq ≤ remote acked + 32"
    if s.seq < s.remote_acked || s.seq - s.remote_acked > STORE_SLOTS {
        return false;
    }
    // What the pass does not decide comes before it, so that fewer values are kept over the loop.
    // "the largest ack is at most seq"
    let largest = s.largest_ack <= s.seq;
    // "the window is 1,400 to 4,294,967,295"
    let window = UDX_MTU <= s.cwnd && s.cwnd <= CWND_MAX;
    if !largest || !window {
        return false;
    }
    let Some(found) = stored(s.remote_acked, s.seq, clock, sent) else {
        return false;
    };
    // "inflight is the sum of lengths of stored packets not waiting"
    let inflight = s.inflight as u64 == found.inflight;
    // "the two inflight totals are the number and payload bytes of the stored packets"
    let packets = t.inflight_packets == found.packets;
    let bytes = t.inflight_bytes == found.bytes;
    inflight && packets && bytes
}
