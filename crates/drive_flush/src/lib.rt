// Queues waiting packets again while they fit the window (flush_waiting_packets).
#![tactic(auto)]

ghost use Rattle.std.specs.Prelude.{◌≡◌, ◌<◌};
ghost use Rattle.drive_flush.specs.Flushing.{FlushesPacket, Roomy, Flushes};

use constants::{QUEUE_WORDS, SENT_WORDS};
use records::{Entry, Queue, QueuedPacket, Sender, Sent};

#[derive(Clone, Copy)]
pub struct Flushed {
    pub sender: Sender,
    pub queue: Queue,
}

// The packet is no longer waiting, and becomes the queue's entry `at`.
fn flush_packet(p: Sent, at: u32, sent: &mut [u64; SENT_WORDS], queue: &mut [u64; QUEUE_WORDS])
    requires { at < 128 }
    ensures { FlushesPacket p at sent.old queue.old sent.new queue.new }
{
    let flushed = Sent {
        waiting: false,
        ..p
    };
    let entry = QueuedPacket {
        number: p.number,
        length: p.length,
    };
    records::put_sent(sent, flushed);
    records::put_entry(queue, at as usize, Entry::Packet(entry));
}

// Flushes the waiting packets, ascending, up to the first that does not fit: each counts as inflight again and is queued.
pub fn flush_waiting_packets(
    s: Sender,
    q: Queue,
    sent: &mut [u64; SENT_WORDS],
    queue: &mut [u64; QUEUE_WORDS],
) -> Flushed
    requires { Roomy s q sent.old }
    ensures { Flushes s q sent.old queue.old result sent.new queue.new }
{
    let mut inflight = s.inflight;
    let mut count = q.count;
    for n in s.remote_acked..s.seq {
        if let Some(p) = records::find_sent(sent, n)
            && p.waiting
        {
            if !records::fits(inflight, p.length, s.cwnd) {
                break;
            }
            flush_packet(p, count, sent, queue);
            inflight += p.length;
            count += 1;
        }
    }
    Flushed {
        sender: Sender { inflight, ..s },
        queue: Queue { count, ..q },
    }
}
