// One call on a copy of an end with one thing broken. The stores are copied into spare ones, a byte longer than a store, so that a store of
// the wrong length can be lent.
#![tactic(auto)]

mod breaking;

ghost use Rattle.std.specs.Prelude.{◌≡◌, ◌+◌, ◌≤◌, length};
ghost use Rattle.drill_broken.specs.Fresh.{FreshSpare};

use breaking::broken;
use constants::{HEADER_STORE, INCOMING_STORE, OUTGOING_STORE};
use drill_script::{DrillCall, Spoil};
use error::{Outcome, Refusal};
use packet::Header;
use rtt::Nanos;
use session_commands::EndStores;
use session_ends::SessionEnd;

pub const SPARE_OUTGOING: usize = OUTGOING_STORE + 1;

pub const SPARE_INCOMING: usize = INCOMING_STORE + 1;

pub const SPARE_HEADERS: usize = HEADER_STORE + 1;

// The spare stores.
#[derive(Drop)]
pub struct Spare {
    pub outgoing: [u8; SPARE_OUTGOING],
    pub incoming: [u8; SPARE_INCOMING],
    pub headers: [u8; SPARE_HEADERS],
}

impl Spare {
    #[inline(always)]
    pub fn fresh() -> Self
        ensures { FreshSpare result }
    {
        Spare {
            outgoing: [0; SPARE_OUTGOING],
            incoming: [0; SPARE_INCOMING],
            headers: [0; SPARE_HEADERS],
        }
    }
}

fn take(
    e: SessionEnd,
    outgoing: &[u8],
    incoming: &[u8],
    headers: &[u8],
) -> Result<Outcome, Refusal> {
    let mut buf = [0u8; 14_000];
    session_ends::take(e, outgoing, incoming, headers, &mut buf).outcome
}

// Delivers a datagram that carries nothing: type 0, the end's id, and all else 0. The header is spelt out: one of zeros means nothing
// elsewhere.
fn deliver(
    e: SessionEnd,
    clock: Nanos,
    outgoing: &[u8],
    incoming: &mut [u8],
    headers: &mut [u8],
) -> Result<Outcome, Refusal> {
    let h = Header {
        typ: 0,
        data_offset: 0,
        stream_id: e.stream.ids.local,
        recv_win: 0,
        seq: 0,
        ack: 0,
    };
    session_ends::deliver(e, &h.to_bytes(), clock, outgoing, incoming, headers).outcome
}

fn read(
    e: SessionEnd,
    outgoing: &[u8],
    incoming: &[u8],
    headers: &[u8],
) -> Result<Outcome, Refusal> {
    let mut buf = [0u8; 16];
    session_ends::read(e, outgoing, incoming, headers, &mut buf).outcome
}

fn look(
    e: SessionEnd,
    outgoing: &[u8],
    incoming: &[u8],
    headers: &[u8],
) -> Result<Outcome, Refusal> {
    if session_ends::look(e, outgoing, incoming, headers).is_empty() {
        Ok(Outcome::Nothing)
    } else {
        Ok(Outcome::Ready)
    }
}

// The one match that makes a call. Three slices here, and three arrays in `make_broken`: the borrow check does not cover slices of three
// fields behind one reference to a struct.
fn make(
    call: DrillCall,
    e: SessionEnd,
    clock: Nanos,
    outgoing: &mut [u8],
    incoming: &mut [u8],
    headers: &mut [u8],
) -> Result<Outcome, Refusal> {
    match call {
        DrillCall::Open => udx::open::open(1, 2, 10, clock, outgoing, incoming, headers).outcome,
        DrillCall::Write => session_ends::write(e, b"Z", outgoing, incoming, headers).outcome,
        DrillCall::Drive => session_ends::drive(e, clock, outgoing, incoming, headers).outcome,
        DrillCall::Take => take(e, outgoing, incoming, headers),
        DrillCall::Deliver => deliver(e, clock, outgoing, incoming, headers),
        DrillCall::Read => read(e, outgoing, incoming, headers),
        DrillCall::Close => session_ends::close(e, outgoing, incoming, headers).outcome,
        DrillCall::Look => look(e, outgoing, incoming, headers),
    }
}

// The length to lend: a byte less if `which` is `short`, a byte more if it is `long`.
fn spoilt(which: u8, short: u8, long: u8, size: usize) -> usize
    requires le_size { 1 ≤ size }
    requires size_bound { size ≤ 1_000_000 }
    ensures { result ≤ size + 1 }
{
    if which == short {
        return size - 1;
    }
    if which == long {
        return size + 1;
    }
    size
}

// Breaks the thing and makes the call, lent as much of each spare store as `which` says.
fn make_broken(
    e: SessionEnd,
    x: Spoil,
    outgoing: &mut [u8; SPARE_OUTGOING],
    incoming: &mut [u8; SPARE_INCOMING],
    headers: &mut [u8; SPARE_HEADERS],
) -> Result<Outcome, Refusal> {
    let o = spoilt(x.which, 1, 2, OUTGOING_STORE);
    let i = spoilt(x.which, 3, 4, INCOMING_STORE);
    let h = spoilt(x.which, 5, 6, HEADER_STORE);
    make(
        x.call,
        broken(e, x.which),
        x.clock,
        &mut outgoing[..o],
        &mut incoming[..i],
        &mut headers[..h],
    )
}

// Makes the call with the thing broken.
pub fn spoil(
    e: SessionEnd,
    x: Spoil,
    stores: &EndStores,
    spare: &mut Spare,
) -> Result<Outcome, Refusal> {
    spare.outgoing[..OUTGOING_STORE].copy_from_slice(&stores.outgoing);
    spare.incoming[..INCOMING_STORE].copy_from_slice(&stores.incoming);
    spare.headers[..HEADER_STORE].copy_from_slice(&stores.headers);
    make_broken(
        e,
        x,
        &mut spare.outgoing,
        &mut spare.incoming,
        &mut spare.headers,
    )
}
