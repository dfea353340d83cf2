// Look for C.
ghost use Rattle.std.specs.Prelude.{◌≡◌};
ghost use Rattle.rules_lent.specs.Broken.{lent};
ghost use Rattle.udx_c.specs.Shown.{flat_part, header_byte, Looks};

use constants::{HELD_WORDS, QUEUE_WORDS, SENT_WORDS};
use records::Stream;
use udx_c_numbers::{FlatStream, FlatTotals};
use udx_c_part::{Part, Store, look_place};

// Where the next datagram is. C cannot be given a subslice, so this is a store, a start and a length.
#[repr(C)]
#[derive(Clone, Copy, Default)]
pub struct FlatPart {
    pub start: usize,
    // 0 if no datagram is left to take, and in place of refusal 1.
    pub length: usize,
    // 1 for the header store, else 0 for the outgoing store.
    pub header: u8,
}

fn header_byte(store: Store) -> u8
    ensures { result ≡ header_byte store }
{
    match store {
        Store::Outgoing => 0,
        Store::Headers => 1,
    }
}

impl From<Option<Part>> for FlatPart {
    ghost from_gives = { λ part r. r ≡ flat_part part };

    fn from(part: Option<Part>) -> FlatPart {
        match part {
            None => FlatPart::default(),
            Some(p) => FlatPart {
                start: p.start,
                length: p.length,
                header: header_byte(p.store),
            },
        }
    }
}

pub fn udx_look(
    stream: FlatStream,
    totals: FlatTotals,
    sent: &[u64; SENT_WORDS],
    held: &[u64; HELD_WORDS],
    queue: &[u64; QUEUE_WORDS],
    outgoing: &[u8],
    incoming: &[u8],
    headers: &[u8],
) -> FlatPart
    ensures { Looks stream totals
        (lent sent.now held.now queue.now outgoing.now
        incoming.now headers.now)
        result }
{
    let Ok(s) = Stream::try_from(stream) else {
        return FlatPart::default();
    };
    look_place(
        s,
        totals.into(),
        sent,
        held,
        queue,
        outgoing,
        incoming,
        headers,
    )
    .into()
}
