// The commands of a session on the end they are for: the call, and its line in a lent buffer.
#![tactic(auto)]

ghost use Rattle.std.specs.Prelude.{◌≡◌, ◌≤◌, ◌<◌, min, true, [], length, get_or, replicate};
ghost use Rattle.model.specs.Sending as sending;
ghost use Rattle.model.specs.Receiving as receiving;
ghost use Rattle.records.specs.Seen.{seen};
ghost use Rattle.session_kept.specs.Kept.{kept_of};
ghost use Rattle.session_ends.specs.Calls.{stores, lent_of, Calls};
ghost use Rattle.session_text.specs.Put.{Wrote};
ghost use Rattle.session_text.specs.Text.{line_of};
ghost use Rattle.session_commands.specs.Acting.{lined_read, acted, has_datagram, short_read};
ghost use Rattle.session_commands.specs.Acts.{side_of, LaidEnd, Acts, Keeps, KeepsBatch};
ghost use Rattle.session_commands.specs.Fresh.{FreshStores};

use constants::{HEADER_STORE, INCOMING_STORE, OUTGOING_STORE, TAKE_ROOM};
use rtt::Nanos;
use session_ends::{Called, SessionEnd};
use session_kept::{KEPT_STORE, Kept};
use session_script::Command;
use session_text::{LINE, Name};

// Size of the buffer for the bytes of writes, batches and reads.
pub const SCRATCH: usize = 65_536;

// What is lent with an end: its three stores, and the bytes of its kept datagrams. A program owns one for each end.
#[derive(Drop)]
pub struct EndStores {
    pub outgoing: [u8; OUTGOING_STORE],
    pub incoming: [u8; INCOMING_STORE],
    pub headers: [u8; HEADER_STORE],
    pub kept: [u8; KEPT_STORE],
}

impl EndStores {
    // As they are before an end is opened over them.
    #[inline(always)]
    pub fn fresh() -> Self
        ensures { FreshStores result }
    {
        EndStores {
            outgoing: [0; OUTGOING_STORE],
            incoming: [0; INCOMING_STORE],
            headers: [0; HEADER_STORE],
            kept: [0; KEPT_STORE],
        }
    }
}

// An end after a command, and the length of the command's line, which is at the start of the lent buffer. A slice of the line in its place
// would keep the buffer lent.
#[derive(Clone, Copy)]
pub struct Acted {
    pub end: SessionEnd,
    pub len: usize,
}

fn put_line(c: Called, name: Name, number: u8, line: &mut [u8; LINE]) -> Acted
    ensures { (result.end ≡ c.end) × Wrote line.old line.new 0 result.len 70
        (line_of name number c.outcome c.count) }
{
    let len = session_text::put_line(line, name, number, c.outcome, c.count as u64);
    Acted { end: c.end, len }
}

// "01 write: end, length (2), fill byte"
fn write(
    e: SessionEnd,
    size: u16,
    byte: u8,
    mine: &mut EndStores,
    scratch: &mut [u8; SCRATCH],
) -> Called
    ensures calls { Calls (sending.write (replicate size byte)) e
        (stores mine.old.outgoing mine.old.incoming mine.old.headers) result
        (stores mine.new.outgoing mine.new.incoming mine.new.headers) }
    ensures keeps { mine.new.kept ≡ mine.old.kept }
{
    let bytes = &mut scratch[..size as usize];
    bytes.fill(byte);
    session_ends::write(e, bytes, &mut mine.outgoing, &mine.incoming, &mine.headers)
}

// Keeps the datagrams of the batch at the front of buf.
fn keep(mut c: Called, kept: &mut [u8; KEPT_STORE], buf: &[u8]) -> Called
    ensures { KeepsBatch c kept.old buf.now result kept.new }
{
    let n = c.count.min(buf.len());
    c.end.kept = session_kept::keep(c.end.kept, &buf[..n], c.segment, kept);
    c
}

// Takes into a buffer of `room` bytes, the front of scratch, and keeps the datagrams of the batch. The stores are lent one by one, so that
// their types say that a take only reads them, and a caller may lend any.
pub fn take_and_keep(
    e: SessionEnd,
    room: usize,
    outgoing: &[u8],
    incoming: &[u8],
    headers: &[u8],
    kept: &mut [u8; KEPT_STORE],
    scratch: &mut [u8],
) -> Called
    ensures { Keeps e (stores outgoing.now incoming.now headers.now)
        (min room (length scratch.old)) kept.old result kept.new }
{
    let n = room.min(scratch.len());
    let buf = &mut scratch[..n];
    let c = session_ends::take(e, outgoing, incoming, headers, buf);
    keep(c, kept, buf)
}

// "04 hand: receiving end, number of a datagram among the other end's last 32 taken"
fn hand(
    e: SessionEnd,
    theirs: Kept,
    number: u16,
    clock: Nanos,
    mine: &mut EndStores,
    kept: &[u8; KEPT_STORE],
) -> Called
    ensures calls { number < length (kept_of theirs kept.now) → Calls
        (receiving.deliver (get_or (kept_of theirs kept.now) number []) clock.0) e
        (stores mine.old.outgoing mine.old.incoming mine.old.headers) result
        (stores mine.new.outgoing mine.new.incoming mine.new.headers) }
    ensures keeps { mine.new.kept ≡ mine.old.kept }
{
    let datagram = session_kept::datagram(theirs, number, kept);
    session_ends::deliver(
        e,
        datagram,
        clock,
        &mine.outgoing,
        &mut mine.incoming,
        &mut mine.headers,
    )
}

// "05 read: end, length (2, to 4,096)"
fn read(
    e: SessionEnd,
    number: u8,
    size: u16,
    mine: &EndStores,
    scratch: &mut [u8; SCRATCH],
    line: &mut [u8; LINE],
) -> Acted
    ensures { (result.len ≤ 8_400) ×
        ((kept : _) → size ≤ 4_096 → LaidEnd e
        (stores mine.now.outgoing mine.now.incoming mine.now.headers) → Acts
        (lined_read number
        (receiving.read size
        (side_of e (stores mine.now.outgoing mine.now.incoming mine.now.headers) kept).end)
        (kept_of e.kept kept))
        result.end (stores mine.now.outgoing mine.now.incoming mine.now.headers) kept result.len
        line.new) }
{
    let n = (size as usize).min(4_096);
    let buf = &mut scratch[..n];
    let c = session_ends::read(e, &mine.outgoing, &mine.incoming, &mine.headers, buf);
    let put = c.count.min(buf.len());
    let len = session_text::put_bytes_line(
        line,
        Name::Read,
        number,
        c.outcome,
        c.count as u64,
        &buf[..put],
    );
    Acted { end: c.end, len }
}

// Runs one command on an end, with which `mine` is lent. `kept` are the bytes of the other end's kept datagrams, `theirs` their record. The
// one match that runs a command.
pub fn act(
    e: SessionEnd,
    theirs: Kept,
    command: Command,
    mine: &mut EndStores,
    kept: &[u8; KEPT_STORE],
    scratch: &mut [u8; SCRATCH],
    line: &mut [u8; LINE],
) -> Acted
    ensures len_bound { result.len ≤ 8_400 }
    ensures acts { LaidEnd e (stores mine.old.outgoing mine.old.incoming mine.old.headers) → has_datagram command
        (kept_of theirs kept.now) ≡ true → short_read command ≡ true → Acts
        (acted command
        (side_of e (stores mine.old.outgoing mine.old.incoming mine.old.headers)
        mine.old.kept)
        (kept_of theirs kept.now))
        result.end (stores mine.new.outgoing mine.new.incoming mine.new.headers) mine.new.kept
        result.len line.new }
{
    match command {
        Command::Write { end, length, fill } => {
            let c = write(e, length, fill, mine, scratch);
            put_line(c, Name::Write, end, line)
        }
        Command::Drive { end, clock } => {
            let c = session_ends::drive(
                e,
                clock,
                &mine.outgoing,
                &mine.incoming,
                &mut mine.headers,
            );
            put_line(c, Name::Drive, end, line)
        }
        Command::Take { end } => {
            let c = take_and_keep(
                e,
                TAKE_ROOM,
                &mine.outgoing,
                &mine.incoming,
                &mine.headers,
                &mut mine.kept,
                scratch,
            );
            put_line(c, Name::Take, end, line)
        }
        Command::Hand { end, number, clock } => {
            let c = hand(e, theirs, number, clock, mine, kept);
            put_line(c, Name::Hand, end, line)
        }
        Command::Read { end, length } => read(e, end, length, mine, scratch, line),
        Command::Close { end } => {
            let c = session_ends::close(e, &mine.outgoing, &mine.incoming, &mut mine.headers);
            put_line(c, Name::Close, end, line)
        }
    }
}
