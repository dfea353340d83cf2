// The calls on an end: those of udx on its records (specs/Calls.antt). Stores go as slices, since drill_broken lends some of wrong lengths.
// Each call is written out: it lends other parts to be written and has its own contract.
ghost use Rattle.std.specs.Prelude.{◌≡◌};
ghost use Rattle.model.specs.Sending as sending;
ghost use Rattle.model.specs.Receiving as receiving;
ghost use Rattle.model.specs.Driving as driving;
ghost use Rattle.udx.specs.Look.{shown_of};
ghost use Rattle.session_ends.specs.Calls.{stores, lent_of, stepped_of, Calls, CallsTake, CallsRead};

use crate::SessionEnd;
use error::{Outcome, Refusal};
use rtt::Nanos;
use udx::Step;

// An end after a call, and what the call returned: a `Step` without the stream and totals, which the end has.
#[derive(Clone, Copy)]
pub struct Called {
    pub end: SessionEnd,
    pub outcome: Result<Outcome, Refusal>,
    pub count: usize,
    pub segment: Option<usize>,
}

// An end, with the words that a step left, after that step.
fn stepped(e: SessionEnd, step: Step) -> Called
    ensures { result ≡ stepped_of e step e.sent e.held e.queue }
{
    Called {
        end: SessionEnd {
            stream: step.stream,
            totals: step.totals,
            ..e
        },
        outcome: step.outcome,
        count: step.count,
        segment: step.segment,
    }
}

pub fn write(
    mut e: SessionEnd,
    bytes: &[u8],
    outgoing: &mut [u8],
    incoming: &[u8],
    headers: &[u8],
) -> Called
    ensures { Calls (sending.write bytes.now) e
        (stores outgoing.old incoming.now headers.now) result
        (stores outgoing.new incoming.now headers.now) }
{
    let step = udx::write::write(
        e.stream,
        e.totals,
        &mut e.sent,
        &e.held,
        &mut e.queue,
        outgoing,
        incoming,
        headers,
        bytes,
    );
    stepped(e, step)
}

pub fn deliver(
    mut e: SessionEnd,
    datagram: &[u8],
    clock: Nanos,
    outgoing: &[u8],
    incoming: &mut [u8],
    headers: &mut [u8],
) -> Called
    ensures { Calls (receiving.deliver datagram.now clock.0) e
        (stores outgoing.now incoming.old headers.old) result
        (stores outgoing.now incoming.new headers.new) }
{
    let step = udx::deliver::deliver(
        e.stream,
        e.totals,
        &mut e.sent,
        &mut e.held,
        &mut e.queue,
        outgoing,
        incoming,
        headers,
        datagram,
        clock,
    );
    stepped(e, step)
}

pub fn drive(
    mut e: SessionEnd,
    clock: Nanos,
    outgoing: &[u8],
    incoming: &[u8],
    headers: &mut [u8],
) -> Called
    ensures { Calls (driving.drive clock.0) e
        (stores outgoing.now incoming.now headers.old) result
        (stores outgoing.now incoming.now headers.new) }
{
    let step = udx::drive::drive(
        e.stream,
        e.totals,
        &mut e.sent,
        &e.held,
        &mut e.queue,
        outgoing,
        incoming,
        headers,
        clock,
    );
    stepped(e, step)
}

pub fn take(
    mut e: SessionEnd,
    outgoing: &[u8],
    incoming: &[u8],
    headers: &[u8],
    buf: &mut [u8],
) -> Called
    ensures { CallsTake e (stores outgoing.now incoming.now headers.now)
        buf.old result buf.new }
{
    let step = udx::take::take(
        e.stream,
        e.totals,
        &mut e.sent,
        &e.held,
        &e.queue,
        outgoing,
        incoming,
        headers,
        buf,
    );
    stepped(e, step)
}

pub fn read(
    mut e: SessionEnd,
    outgoing: &[u8],
    incoming: &[u8],
    headers: &[u8],
    buf: &mut [u8],
) -> Called
    ensures { CallsRead e (stores outgoing.now incoming.now headers.now)
        buf.old result buf.new }
{
    let step = udx::read::read(
        e.stream,
        e.totals,
        &e.sent,
        &mut e.held,
        &e.queue,
        outgoing,
        incoming,
        headers,
        buf,
    );
    stepped(e, step)
}

pub fn close(mut e: SessionEnd, outgoing: &[u8], incoming: &[u8], headers: &mut [u8]) -> Called
    ensures { Calls sending.close e
        (stores outgoing.now incoming.now headers.old) result
        (stores outgoing.now incoming.now headers.new) }
{
    let step = udx::close::close(
        e.stream,
        e.totals,
        &e.sent,
        &e.held,
        &mut e.queue,
        outgoing,
        incoming,
        headers,
    );
    stepped(e, step)
}

pub fn look<'a>(e: SessionEnd, outgoing: &'a [u8], incoming: &[u8], headers: &'a [u8]) -> &'a [u8]
    ensures { result.now ≡ shown_of e.stream e.totals
        (lent_of e (stores outgoing.now incoming.now headers.now)) }
{
    udx::look::look(
        e.stream, e.totals, &e.sent, &e.held, &e.queue, outgoing, incoming, headers,
    )
}
