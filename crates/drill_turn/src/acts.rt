// Runs the drill's commands on an end; each writes its line.
ghost use Rattle.std.specs.Prelude.{◌≤◌, length};

use crate::numbers::numbers;
use constants::{HELD_WORDS, QUEUE_WORDS, SENT_WORDS, STORE_SLOTS};
use drill_broken::Spare;
use drill_lines::DrillName;
use drill_script::{Base, Drill, Encode, Open, Raw, Room, Spoil};
use error::Outcome;
use packet::Header;
use records::{Receiver, Sender, Stream};
use session_ends::SessionEnd;
use session_text::LINE;
use session_turn::{Acted, EndStores, SCRATCH};

// The n bytes of a command from `place` on, or none if the command is too short.
fn part(s: &[u8], place: u8, n: u16) -> &[u8] {
    let at = place as usize;
    s.get(at..at + n as usize).unwrap_or(&[])
}

fn raw(e: SessionEnd, r: Raw, s: &[u8], mine: &mut EndStores, line: &mut [u8; LINE]) -> Acted
    ensures { result.len ≤ 8_400 }
{
    let c = session_ends::deliver(
        e,
        part(s, 12, r.length),
        r.clock,
        &mine.outgoing,
        &mut mine.incoming,
        &mut mine.headers,
    );
    let len = drill_lines::put_line(line, DrillName::Raw, r.end, c.outcome);
    Acted { end: c.end, len }
}

// Whether a number from `from` to below `to` is held; looks at one for each slot at most.
fn any_held(held: &[u64; HELD_WORDS], from: u32, to: u32) -> bool {
    (0..STORE_SLOTS)
        .map(|i| from.wrapping_add(i))
        .take_while(|n| *n < to)
        .any(|n| records::find_held(held, n).is_some())
}

// What base requires: nothing stored, held, unread or queued, largest ack 0 and no error.
fn is_empty(e: SessionEnd) -> bool {
    let s = e.stream;
    s.queue.count == 0
        && s.sender.largest_ack == 0
        && e.totals.inflight_packets == 0
        && s.ending.error.is_none()
        && s.receiver.ack == s.receiver.read_cursor
        && !any_held(&e.held, s.receiver.read_cursor, s.receiver.top)
}

// Nothing is stored, held or queued, so the words can be cleared.
fn based(e: SessionEnd, b: Base) -> SessionEnd {
    let s = e.stream;
    SessionEnd {
        stream: Stream {
            sender: Sender {
                seq: b.seq,
                remote_acked: b.seq,
                cwnd: b.window,
                ..s.sender
            },
            receiver: Receiver {
                ack: b.ack,
                read_cursor: b.ack,
                top: b.ack,
            },
            ..s
        },
        sent: [0; SENT_WORDS],
        held: [0; HELD_WORDS],
        queue: [0; QUEUE_WORDS],
        ..e
    }
}

fn base(e: SessionEnd, b: Base, line: &mut [u8; LINE]) -> Acted
    ensures { result.len ≤ 8_400 }
{
    if is_empty(e) && 1_400 <= b.window {
        let len = drill_lines::put_line(line, DrillName::Base, b.end, Ok(Outcome::Ready));
        return Acted {
            end: based(e, b),
            len,
        };
    }
    let len = drill_lines::put_line(line, DrillName::Base, b.end, Ok(Outcome::Nothing));
    Acted { end: e, len }
}

// Reopens the end; its words stay as they are.
fn open(e: SessionEnd, opened: Open, mine: &EndStores, line: &mut [u8; LINE]) -> Acted
    ensures { result.len ≤ 8_400 }
{
    let o = udx::open::open(
        opened.local,
        opened.remote,
        opened.ceiling,
        opened.clock,
        &mine.outgoing,
        &mine.incoming,
        &mine.headers,
    );
    let len = drill_lines::put_line(line, DrillName::Open, opened.end, o.outcome);
    if o.outcome.is_ok() {
        let end = SessionEnd {
            stream: o.stream,
            totals: o.totals,
            ..e
        };
        return Acted { end, len };
    }
    Acted { end: e, len }
}

// The checksum of a batch's bytes that the line prints.
fn sum(batch: &[u8]) -> u64 {
    batch.iter().fold(0, |sum, b| {
        (31 * (sum % 4_294_967_291) + *b as u64) % 4_294_967_291
    })
}

fn room(
    e: SessionEnd,
    r: Room,
    mine: &mut EndStores,
    scratch: &mut [u8],
    line: &mut [u8; LINE],
) -> Acted
    ensures { result.len ≤ 8_400 }
{
    let c = session_turn::take_and_keep(
        e,
        r.length as usize,
        &mine.outgoing,
        &mine.incoming,
        &mine.headers,
        &mut mine.kept,
        scratch,
    );
    let n = c.count.min(scratch.len());
    let len = drill_lines::put_room(
        line,
        r.end,
        c.outcome,
        c.count as u64,
        c.segment,
        sum(&scratch[..n]),
    );
    Acted { end: c.end, len }
}

fn look(e: SessionEnd, number: u8, mine: &EndStores, line: &mut [u8; LINE]) -> usize
    ensures { result ≤ 8_400 }
{
    let shown = session_ends::look(e, &mine.outgoing, &mine.incoming, &mine.headers);
    let n = shown.len().min(4_096);
    drill_lines::put_look(line, number, &shown[..n])
}

fn encode_into(h: Header, buf: &mut [u8], line: &mut [u8; LINE]) -> usize
    requires { length buf.old ≤ 64 }
    ensures { result ≤ 8_400 }
{
    let outcome = h.encode(buf).map(|()| Outcome::Ready);
    drill_lines::put_encoded(line, outcome, buf)
}

// Encodes into a buffer filled with aa, so that bytes left alone can be seen.
fn encode(x: Encode, line: &mut [u8; LINE]) -> usize
    ensures { result ≤ 8_400 }
{
    let mut buf = [0xaau8; 64];
    let n = (x.length as usize).min(64);
    encode_into(x.header, &mut buf[..n], line)
}

fn decode(bytes: &[u8], line: &mut [u8; LINE]) -> usize
    ensures { result ≤ 8_400 }
{
    match Header::from_bytes(bytes) {
        Ok(h) => drill_lines::put_decoded(line, h),
        Err(why) => drill_lines::put_not_decoded(line, Err(why)),
    }
}

fn put_numbers(e: SessionEnd, number: u8, line: &mut [u8; LINE]) -> usize
    ensures { result ≤ 8_400 }
{
    drill_lines::put_all_numbers(line, number, &numbers(e))
}

fn spoil(
    e: SessionEnd,
    x: Spoil,
    mine: &EndStores,
    spare: &mut Spare,
    line: &mut [u8; LINE],
) -> usize
    ensures { result ≤ 8_400 }
{
    let outcome = drill_broken::spoil(e, x, mine, spare);
    drill_lines::put_line(line, DrillName::Spoil, x.end, outcome)
}

// Runs a drill command on the end; s starts with its bytes. Answers the line's length. The one match that runs a command. The end changes in
// place: an answer with an end would take room in `run_one`'s frame, below a session's command too.
pub fn act(
    e: &mut SessionEnd,
    drill: Drill,
    s: &[u8],
    mine: &mut EndStores,
    scratch: &mut [u8; SCRATCH],
    spare: &mut Spare,
    line: &mut [u8; LINE],
) -> usize
    ensures { result ≤ 8_400 }
{
    let a = match drill {
        Drill::Raw(r) => raw(*e, r, s, mine, line),
        Drill::Base(b) => base(*e, b, line),
        Drill::Open(o) => open(*e, o, mine, line),
        Drill::Room(r) => room(*e, r, mine, scratch, line),
        Drill::Look { end } => return look(*e, end, mine, line),
        Drill::Numbers { end } => return put_numbers(*e, end, line),
        Drill::Encode(x) => return encode(x, line),
        Drill::Decode { length: size } => return decode(part(s, 2, size as u16), line),
        Drill::Spoil(x) => return spoil(*e, x, mine, spare, line),
    };
    *e = a.end;
    a.len
}
