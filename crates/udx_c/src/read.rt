// Read for C.
ghost use Rattle.std.specs.Prelude.{◌≡◌, true};
ghost use Rattle.rules_lent.specs.Broken.{lent};
ghost use Rattle.udx.specs.Read.{Gives};
ghost use Rattle.udx_c_numbers.specs.Bytes.{is_strange};
ghost use Rattle.udx_c.specs.Crosses.{Crosses};

use constants::{HELD_WORDS, QUEUE_WORDS, SENT_WORDS};
use records::Stream;
use udx_c_numbers::{FlatStep, FlatStream, FlatTotals, broken_step};

pub fn udx_read(
    stream: FlatStream,
    totals: FlatTotals,
    sent: &[u64; SENT_WORDS],
    held: &mut [u64; HELD_WORDS],
    queue: &[u64; QUEUE_WORDS],
    outgoing: &[u8],
    incoming: &[u8],
    headers: &[u8],
    buf: &mut [u8],
) -> FlatStep
    ensures { (Crosses (λ s t l x m. Gives s t l buf.old x m buf.new) stream totals
        (lent sent.now held.old queue.now outgoing.now
        incoming.now headers.now)
        result
        (lent sent.now held.new queue.now outgoing.now
        incoming.now headers.now))
        × (is_strange stream.ending ≡ true → buf.new ≡ buf.old) }
{
    let Ok(s) = Stream::try_from(stream) else {
        return broken_step(stream, totals);
    };
    udx::read::read(
        s,
        totals.into(),
        sent,
        held,
        queue,
        outgoing,
        incoming,
        headers,
        buf,
    )
    .into()
}
