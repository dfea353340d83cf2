// Refusal 1: whether a call is lent stores of 01's lengths and records that keep every rule. Everything is lent read-only here,
// even what the call may write later.
#![tactic(auto)]

ghost use Rattle.std.specs.Prelude.{◌≡◌, length};
ghost use Rattle.rules_lent.specs.Broken.{broken_records, lent};

use constants::{HELD_WORDS, QUEUE_WORDS, SENT_WORDS};
use records::{Stream, Totals};

// Refusal 1: "A lent store has another length than above, or a rule of the records is broken"
pub fn broken(
    s: Stream,
    t: Totals,
    sent: &[u64; SENT_WORDS],
    held: &[u64; HELD_WORDS],
    queue: &[u64; QUEUE_WORDS],
    outgoing: &[u8],
    incoming: &[u8],
    headers: &[u8],
) -> bool
    ensures { (result ≡ broken_records s t
        (lent sent.now held.now queue.now outgoing.now
        incoming.now headers.now))
        × (length queue.now ≡ 128) }
{
    records::stores_differ(outgoing, incoming, headers)
        || !rules_stream::ok_stream(s, t, sent, held, queue)
}
