// Settling the largest ack since the last drive (handle_incoming_max_remote_ack).
#![tactic(auto)]

ghost use Rattle.std.specs.Prelude.{◌≡◌, ◌^◌, ◌<◌};
ghost use Rattle.rtt.specs.Estimate.{InRange};
ghost use Rattle.deliver_acks.specs.Acked.{Timed, InWindow};
ghost use Rattle.drive_settle.specs.Settling.{SettlesOne, Settleable, Settles, Restarts, Acked, Settled};

use constants::SENT_WORDS;
use deliver_acks::Acks;
use records::{Sender, Stream, StreamAndTotals, Timing, Totals};
use rtt::Nanos;

// Settles the lowest number: its packet leaves if it is stored, and remote acked moves past it.
fn settle_one(a: Acks, clock: Nanos, sent: &mut [u64; SENT_WORDS]) -> Acks
    requires { Timed a clock.0 × InWindow a.sender a.sender.remote_acked }
    ensures { SettlesOne clock.0 a sent.old result sent.new }
{
    let b = deliver_acks::handle_remote_ack(a, clock, sent, a.sender.remote_acked);
    let sender = Sender {
        remote_acked: b.sender.remote_acked + 1,
        ..b.sender
    };
    Acks { sender, ..b }
}

// Settles the numbers from remote acked to below `to`, ascending.
fn settle_numbers(a: Acks, clock: Nanos, sent: &mut [u64; SENT_WORDS], to: u32) -> Acks
    requires { Timed a clock.0 × Settleable a.sender to }
    ensures { Settles clock.0 to a sent.old result sent.new }
{
    let mut b = a;
    // Settling a number moves remote acked, which is the count: a `for` would keep a second one beside it.
    while b.sender.remote_acked < to {
        b = settle_one(b, clock, sent);
    }
    b
}

// Resets the largest ack. "and if it moved, deadline = now + rto", with the rto after the samples.
fn restart(s: Stream, clock: Nanos, a: Acks) -> StreamAndTotals
    requires { InRange a.rtt × (clock.0 < 2 ^ 60) }
    ensures { Restarts s clock.0 a result }
{
    let moved = s.sender.remote_acked < s.sender.largest_ack;
    let measured = Timing {
        rtt: a.rtt,
        ..s.timing
    };
    let stream = Stream {
        sender: Sender {
            largest_ack: 0,
            ..a.sender
        },
        timing: drive_timer::restarted(measured, clock, moved),
        ..s
    };
    StreamAndTotals {
        stream,
        totals: a.totals,
    }
}

// "settle the largest ack in ascending order"
pub fn handle_incoming_max_remote_ack(
    s: Stream,
    t: Totals,
    clock: Nanos,
    sent: &mut [u64; SENT_WORDS],
) -> StreamAndTotals
    requires { Acked s clock.0 }
    ensures { Settled s t clock.0 sent.old result sent.new }
{
    let before = Acks {
        sender: s.sender,
        rtt: s.timing.rtt,
        totals: t,
    };
    let a = settle_numbers(before, clock, sent, s.sender.largest_ack);
    restart(s, clock, a)
}
