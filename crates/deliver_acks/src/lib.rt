// Acknowledged packets leave the outgoing store: those of SACK blocks when they are delivered, the others when a drive settles them.
#![tactic(auto)]

ghost use Rattle.std.specs.Prelude.{◌≡◌, ◌+◌, ◌≤◌, ◌<◌, ◌^◌};
ghost use Rattle.rtt.specs.Estimate.{InRange};
ghost use Rattle.deliver_acks.specs.Acked.{left_sender, measured_rtt, acked_totals, Measures, Timed, InWindow, AcksOne};
ghost use Rattle.deliver_acks.specs.Sacks.{RunInWindow, AcksRun, AcksBlocks};

use constants::{SENT_WORDS, UDX_HEADER_SIZE};
use packet::Block;
use packet_blocks::BlockReader;
use records::{Sender, Sent, Totals};
use rtt::{Nanos, Rtt};

// What acking a packet changes, besides the lent words. These stay beside it: it is Copy and goes round the loops by value, which a struct
// with a `&mut` cannot.
#[derive(Clone, Copy)]
pub struct Acks {
    pub sender: Sender,
    pub rtt: Rtt,
    pub totals: Totals,
}

// "An acked packet not waiting leaves inflight."
fn left_sender(s: Sender, p: Sent) -> Sender
    ensures { result ≡ left_sender s p }
{
    let rest = s.inflight.saturating_sub(p.length);
    let inflight = if p.waiting { s.inflight } else { rest };
    Sender { inflight, ..s }
}

// "With a time sent and exactly one transmit it gives a sample, the call's clock less the time sent"
fn measured(e: Rtt, p: Sent, clock: Nanos) -> Rtt
    requires { InRange e × (clock.0 < 2 ^ 60) }
    ensures { Measures e p clock.0 result }
{
    if p.transmits == 1
        && let Some(sent_at) = p.sent_at
    {
        return e.sample(Nanos(clock.0.saturating_sub(sent_at.0)));
    }
    e
}

// "the two inflight ones count what is stored"
fn acked_totals(t: Totals, p: Sent) -> Totals
    ensures { result ≡ acked_totals t p }
{
    let payload = p.length.saturating_sub(UDX_HEADER_SIZE as u32) as u64;
    Totals {
        inflight_packets: t.inflight_packets.saturating_sub(1),
        inflight_bytes: t.inflight_bytes.saturating_sub(payload),
        ..t
    }
}

// Removes packet n if it is stored (handle_remote_ack_for_packet).
pub fn handle_remote_ack(a: Acks, clock: Nanos, sent: &mut [u64; SENT_WORDS], n: u32) -> Acks
    requires { Timed a clock.0 × InWindow a.sender n }
    ensures { AcksOne clock.0 n a sent.old result sent.new }
{
    let Some(p) = records::find_sent(sent, n) else {
        return a;
    };
    records::clear_sent(sent, n);
    Acks {
        sender: left_sender(a.sender, p),
        rtt: measured(a.rtt, p, clock),
        totals: acked_totals(a.totals, p),
    }
}

// Acks the numbers from `from` to below `to`, ascending.
fn ack_numbers(mut a: Acks, clock: Nanos, sent: &mut [u64; SENT_WORDS], from: u32, to: u32) -> Acks
    requires { Timed a clock.0 × RunInWindow a.sender from to }
    ensures { AcksRun clock.0 from to a sent.old result sent.new }
{
    for n in from..to {
        a = handle_remote_ack(a, clock, sent, n);
    }
    a
}

// Acks the numbers of a block, end excluded. Only numbers from remote_acked to below seq can be stored, so a block takes at most 32
// turns, however long it is.
fn ack_block(a: Acks, clock: Nanos, sent: &mut [u64; SENT_WORDS], block: Block) -> Acks
    requires { Timed a clock.0 × (a.sender.seq ≤ a.sender.remote_acked + 32) }
    ensures { AcksRun clock.0 block.start block.end a sent.old result sent.new }
{
    let from = block.start.max(a.sender.remote_acked);
    let to = block.end.min(a.sender.seq);
    ack_numbers(a, clock, sent, from, to)
}

// Acks every block of a payload.
pub fn handle_incoming_sacks(
    mut a: Acks,
    clock: Nanos,
    sent: &mut [u64; SENT_WORDS],
    payload: &[u8],
) -> Acks
    requires { Timed a clock.0 × (a.sender.seq ≤ a.sender.remote_acked + 32) }
    ensures { AcksBlocks clock.0 payload.now a sent.old result sent.new }
{
    for block in BlockReader::new(payload) {
        a = ack_block(a, clock, sent, block);
    }
    a
}
