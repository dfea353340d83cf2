// The archive that C and Rust link: each function of udx_c under its name and contract. include/udx.h declares them. A crate is a library
// or an archive and not both, so the exports stand here, and udx_c says what they do.
#![tactic(auto)]

ghost use Rattle.std.specs.Prelude.{◌≡◌, ◌++◌, true, replicate};
ghost use Rattle.packet.specs.Header.{decoded};
ghost use Rattle.model.specs.Driving as model_driving;
ghost use Rattle.model.specs.Receiving as model_receiving;
ghost use Rattle.model.specs.Sending as model;
ghost use Rattle.rules_lent.specs.Broken.{lent};
ghost use Rattle.udx.specs.Agree.{Answers};
ghost use Rattle.udx.specs.Read.{Gives};
ghost use Rattle.udx.specs.Take.{Hands};
ghost use Rattle.udx_c_numbers.specs.Bytes.{is_strange};
ghost use Rattle.udx_c.specs.Coded.{FlatEncodes, flat_decoded};
ghost use Rattle.udx_c.specs.Crosses.{Crosses, FlatOpens};
ghost use Rattle.udx_c.specs.Layout.{stream_fields, totals_fields, step_fields, count_from};
ghost use Rattle.udx_c.specs.Shown.{Looks};

use constants::{HELD_WORDS, QUEUE_WORDS, SENT_WORDS};
use udx_c::{FlatDecoded, FlatHeader, FlatPart, Numbers};
use udx_c_numbers::{FlatStep, FlatStream, FlatTotals};

#[unsafe(no_mangle)]
pub extern "C" fn udx_open(
    local: u32,
    remote: u32,
    segments: u8,
    clock: u64,
    outgoing: &[u8],
    incoming: &[u8],
    headers: &[u8],
) -> FlatStep
    ensures { FlatOpens local remote segments clock outgoing.now incoming.now
        headers.now result }
{
    udx_c::udx_open(local, remote, segments, clock, outgoing, incoming, headers)
}

#[unsafe(no_mangle)]
pub extern "C" fn udx_write(
    stream: FlatStream,
    totals: FlatTotals,
    sent: &mut [u64; SENT_WORDS],
    held: &[u64; HELD_WORDS],
    queue: &mut [u64; QUEUE_WORDS],
    outgoing: &mut [u8],
    incoming: &[u8],
    headers: &[u8],
    bytes: &[u8],
) -> FlatStep
    ensures { Crosses (Answers (model.write bytes.now)) stream totals
        (lent sent.old held.now queue.old outgoing.old
        incoming.now headers.now)
        result
        (lent sent.new held.now queue.new outgoing.new incoming.now
        headers.now) }
{
    udx_c::udx_write(
        stream, totals, sent, held, queue, outgoing, incoming, headers, bytes,
    )
}

#[unsafe(no_mangle)]
pub extern "C" fn udx_drive(
    stream: FlatStream,
    totals: FlatTotals,
    sent: &mut [u64; SENT_WORDS],
    held: &[u64; HELD_WORDS],
    queue: &mut [u64; QUEUE_WORDS],
    outgoing: &[u8],
    incoming: &[u8],
    headers: &mut [u8],
    clock: u64,
) -> FlatStep
    ensures { Crosses (Answers (model_driving.drive clock)) stream totals
        (lent sent.old held.now queue.old outgoing.now
        incoming.now headers.old)
        result
        (lent sent.new held.now queue.new outgoing.now incoming.now
        headers.new) }
{
    udx_c::udx_drive(
        stream, totals, sent, held, queue, outgoing, incoming, headers, clock,
    )
}

#[unsafe(no_mangle)]
pub extern "C" fn udx_take(
    stream: FlatStream,
    totals: FlatTotals,
    sent: &mut [u64; SENT_WORDS],
    held: &[u64; HELD_WORDS],
    queue: &[u64; QUEUE_WORDS],
    outgoing: &[u8],
    incoming: &[u8],
    headers: &[u8],
    buf: &mut [u8],
) -> FlatStep
    ensures { (Crosses (λ s t l x m. Hands s t l buf.old x m buf.new) stream totals
        (lent sent.old held.now queue.now outgoing.now
        incoming.now headers.now)
        result
        (lent sent.new held.now queue.now outgoing.now
        incoming.now headers.now))
        × (is_strange stream.ending ≡ true → buf.new ≡ buf.old) }
{
    udx_c::udx_take(
        stream, totals, sent, held, queue, outgoing, incoming, headers, buf,
    )
}

#[unsafe(no_mangle)]
pub extern "C" fn udx_look(
    stream: FlatStream,
    totals: FlatTotals,
    sent: &[u64; SENT_WORDS],
    held: &[u64; HELD_WORDS],
    queue: &[u64; QUEUE_WORDS],
    outgoing: &[u8],
    incoming: &[u8],
    headers: &[u8],
) -> FlatPart
    ensures { Looks stream totals
        (lent sent.now held.now queue.now outgoing.now
        incoming.now headers.now)
        result }
{
    udx_c::udx_look(
        stream, totals, sent, held, queue, outgoing, incoming, headers,
    )
}

#[unsafe(no_mangle)]
pub extern "C" fn udx_deliver(
    stream: FlatStream,
    totals: FlatTotals,
    sent: &mut [u64; SENT_WORDS],
    held: &mut [u64; HELD_WORDS],
    queue: &mut [u64; QUEUE_WORDS],
    outgoing: &[u8],
    incoming: &mut [u8],
    headers: &mut [u8],
    datagram: &[u8],
    clock: u64,
) -> FlatStep
    ensures { Crosses (Answers (model_receiving.deliver datagram.now clock)) stream totals
        (lent sent.old held.old queue.old outgoing.now
        incoming.old headers.old)
        result
        (lent sent.new held.new queue.new outgoing.now incoming.new
        headers.new) }
{
    udx_c::udx_deliver(
        stream, totals, sent, held, queue, outgoing, incoming, headers, datagram, clock,
    )
}

#[unsafe(no_mangle)]
pub extern "C" fn udx_read(
    stream: FlatStream,
    totals: FlatTotals,
    sent: &[u64; SENT_WORDS],
    held: &mut [u64; HELD_WORDS],
    queue: &[u64; QUEUE_WORDS],
    outgoing: &[u8],
    incoming: &[u8],
    headers: &[u8],
    buf: &mut [u8],
) -> FlatStep
    ensures { (Crosses (λ s t l x m. Gives s t l buf.old x m buf.new) stream totals
        (lent sent.now held.old queue.now outgoing.now
        incoming.now headers.now)
        result
        (lent sent.now held.new queue.now outgoing.now
        incoming.now headers.now))
        × (is_strange stream.ending ≡ true → buf.new ≡ buf.old) }
{
    udx_c::udx_read(
        stream, totals, sent, held, queue, outgoing, incoming, headers, buf,
    )
}

#[unsafe(no_mangle)]
pub extern "C" fn udx_close(
    stream: FlatStream,
    totals: FlatTotals,
    sent: &[u64; SENT_WORDS],
    held: &[u64; HELD_WORDS],
    queue: &mut [u64; QUEUE_WORDS],
    outgoing: &[u8],
    incoming: &[u8],
    headers: &mut [u8],
) -> FlatStep
    ensures { Crosses (Answers model.close) stream totals
        (lent sent.now held.now queue.old outgoing.now
        incoming.now headers.old)
        result
        (lent sent.now held.now queue.new outgoing.now
        incoming.now headers.new) }
{
    udx_c::udx_close(
        stream, totals, sent, held, queue, outgoing, incoming, headers,
    )
}

// Returns 0, or the refusal's number.
#[unsafe(no_mangle)]
pub extern "C" fn udx_encode(header: FlatHeader, buf: &mut [u8]) -> u8
    ensures { FlatEncodes header buf.old buf.new result }
{
    udx_c::udx_encode(header, buf)
}

#[unsafe(no_mangle)]
pub extern "C" fn udx_decode(buf: &[u8]) -> FlatDecoded
    ensures { result ≡ flat_decoded (decoded buf.now) }
{
    udx_c::udx_decode(buf)
}

// The fields of a stream in order, as received.
#[unsafe(no_mangle)]
pub extern "C" fn udx_layout_stream(s: FlatStream) -> Numbers
    ensures { result.n ≡ stream_fields s }
{
    udx_c::udx_layout_stream(s)
}

// The same for totals, after a stream; the numbers past them are 0.
#[unsafe(no_mangle)]
pub extern "C" fn udx_layout_totals(s: FlatStream, t: FlatTotals) -> Numbers
    ensures { result.n ≡ totals_fields t ++ replicate 18 0 }
{
    udx_c::udx_layout_totals(s, t)
}

// A step whose fields are 1, 2, 3 and so on, in order.
#[unsafe(no_mangle)]
pub extern "C" fn udx_layout_step() -> FlatStep
    ensures { step_fields result ≡ count_from 34 1 }
{
    udx_c::udx_layout_step()
}
