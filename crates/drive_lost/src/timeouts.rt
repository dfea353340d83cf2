// What a due timer does to the stored packets: all are considered lost (the loop of poll_check_timeouts).
ghost use Rattle.std.specs.Prelude.{◌≡◌, ◌≤◌};
ghost use Rattle.drive_lost.specs.Packets.{AllSentBounds};
ghost use Rattle.drive_lost.specs.Timeouts.{lost_packet, TimesOutPackets};

use constants::{SENT_WORDS, UDX_MAX_TRANSMITS};
use records::{Sender, Sent};

// Packets marked before one that failed stay marked, so the sender counts either way: a Result would hold it in both of its cases.
#[derive(Clone, Copy)]
pub struct Passed {
    pub sender: Sender,
    // A packet had no transmits left.
    pub failed: bool,
}

// The packet, waiting, with one more transmit. A packet that is taken gains a transmit as well, but there it gets a time sent (crate
// take_entry): the two share nothing but that sum.
fn lost_packet(p: Sent) -> Sent
    requires { p.transmits ≤ 5 }
    ensures { result ≡ lost_packet p }
{
    Sent {
        transmits: p.transmits + 1,
        waiting: true,
        ..p
    }
}

// Marks the stored packets that are not waiting, ascending: each gains a transmit, waits and leaves inflight, up to the first that has no
// transmits left. Packets marked before it stay marked.
pub fn time_out_packets(s: Sender, sent: &mut [u64; SENT_WORDS]) -> Passed
    requires { AllSentBounds s sent.old }
    ensures { TimesOutPackets s sent.old result sent.new }
{
    let mut inflight = s.inflight;
    for n in s.remote_acked..s.seq {
        if let Some(p) = records::find_sent(sent, n)
            && !p.waiting
        {
            if (UDX_MAX_TRANSMITS as u32) < p.transmits {
                return Passed {
                    sender: Sender { inflight, ..s },
                    failed: true,
                };
            }
            records::put_sent(sent, lost_packet(p));
            inflight = inflight.saturating_sub(p.length);
        }
    }
    Passed {
        sender: Sender { inflight, ..s },
        failed: false,
    }
}
