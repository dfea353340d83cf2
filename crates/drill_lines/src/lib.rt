// Formats the drill's output lines, each at the start of a buffer, piece by piece with what session_text has for it. An end is a number
// here as in the script, 0 or 1: an enum would be made of it and turned back into it.
#![tactic(auto)]

ghost use Rattle.std.specs.Prelude.{◌+◌, ◌*◌, ◌≤◌, length};

use error::{Outcome, Refusal};
use packet::Header;
use session_text::LINE;

#[derive(Clone, Copy)]
pub enum DrillName {
    Raw,
    Base,
    Open,
    Room,
    Look,
    Numbers,
    Encode,
    Decode,
    Spoil,
}

impl DrillName {
    fn word(self) -> &'static [u8]
        ensures { length result.now ≤ 7 }
    {
        match self {
            DrillName::Raw => b"raw",
            DrillName::Base => b"base",
            DrillName::Open => b"open",
            DrillName::Room => b"room",
            DrillName::Look => b"look",
            DrillName::Numbers => b"numbers",
            DrillName::Encode => b"encode",
            DrillName::Decode => b"decode",
            DrillName::Spoil => b"spoil",
        }
    }
}

// Like session_text's `put_name`, for this crate's enum; a trait for both would be longer.
fn put_name(out: &mut [u8], name: DrillName) -> usize
    requires { 7 ≤ length out.old }
    ensures { result ≤ 7 }
{
    session_text::put_word(out, 0, name.word())
}

// A number after a space.
fn put_number(out: &mut [u8], at: usize, n: u64) -> usize
    requires { at + 21 ≤ length out.old }
    ensures { result ≤ at + 21 }
{
    let a = session_text::put_space(out, at);
    session_text::put_decimal(out, a, n)
}

// Each number after a space.
fn put_numbers(out: &mut [u8], at: usize, numbers: &[u64]) -> usize
    requires { at + 21 * length numbers.now ≤ length out.old }
    ensures { result ≤ at + 21 * length numbers.now }
{
    let mut to = at;
    for &n in numbers {
        to = put_number(out, to, n);
    }
    to
}

// Bytes after a space, then the end of the line.
fn put_last_bytes(out: &mut [u8], at: usize, bytes: &[u8]) -> usize
    requires { at + 2 * length bytes.now + 3 ≤ length out.old }
    ensures { result ≤ at + 2 * length bytes.now + 3 }
{
    let a = session_text::put_space(out, at);
    let b = session_text::put_bytes(out, a, bytes);
    session_text::put_end(out, b)
}

// `NAME END OUTCOME 0`
pub fn put_line(
    out: &mut [u8; LINE],
    name: DrillName,
    end: u8,
    outcome: Result<Outcome, Refusal>,
) -> usize
    ensures { result ≤ 8_400 }
{
    let a = put_name(out, name);
    let b = session_text::put_answer(out, a, end, outcome, 0);
    session_text::put_end(out, b)
}

// `room END OUTCOME COUNT SEGMENT SUM`; SEGMENT is 0 if the batch has no segment size.
pub fn put_room(
    out: &mut [u8; LINE],
    end: u8,
    outcome: Result<Outcome, Refusal>,
    count: u64,
    segment: Option<usize>,
    sum: u64,
) -> usize
    ensures { result ≤ 8_400 }
{
    let a = put_name(out, DrillName::Room);
    let b = session_text::put_answer(out, a, end, outcome, count);
    let c = put_numbers(out, b, &[segment.unwrap_or(0) as u64, sum]);
    session_text::put_end(out, c)
}

// `look END ok COUNT BYTES`
pub fn put_look(out: &mut [u8; LINE], end: u8, shown: &[u8]) -> usize
    requires { length shown.now ≤ 4_096 }
    ensures { result ≤ 8_400 }
{
    let a = put_name(out, DrillName::Look);
    let b = session_text::put_answer(out, a, end, Ok(Outcome::Ready), shown.len() as u64);
    put_last_bytes(out, b, shown)
}

// `numbers END` and the numbers
pub fn put_all_numbers(out: &mut [u8; LINE], end: u8, numbers: &[u64; 22]) -> usize
    ensures { result ≤ 8_400 }
{
    let a = put_name(out, DrillName::Numbers);
    let b = put_number(out, a, end as u64);
    let c = put_numbers(out, b, numbers);
    session_text::put_end(out, c)
}

// `encode OUTCOME COUNT BYTES`
pub fn put_encoded(out: &mut [u8; LINE], outcome: Result<Outcome, Refusal>, bytes: &[u8]) -> usize
    requires { length bytes.now ≤ 64 }
    ensures { result ≤ 8_400 }
{
    let a = put_name(out, DrillName::Encode);
    let b = session_text::put_space(out, a);
    let c = session_text::put_outcome(out, b, outcome);
    let d = put_number(out, c, bytes.len() as u64);
    put_last_bytes(out, d, bytes)
}

fn put_decode_head(out: &mut [u8; LINE], outcome: Result<Outcome, Refusal>) -> usize
    ensures { result ≤ 100 }
{
    let a = put_name(out, DrillName::Decode);
    let b = session_text::put_space(out, a);
    session_text::put_outcome(out, b, outcome)
}

// `decode ok TYPE OFFSET ID WINDOW SEQ ACK`
pub fn put_decoded(out: &mut [u8; LINE], h: Header) -> usize
    ensures { result ≤ 8_400 }
{
    let fields = [
        h.typ as u64,
        h.data_offset as u64,
        h.stream_id as u64,
        h.recv_win as u64,
        h.seq as u64,
        h.ack as u64,
    ];
    let a = put_decode_head(out, Ok(Outcome::Ready));
    let b = put_numbers(out, a, &fields);
    session_text::put_end(out, b)
}

// `decode 7`
pub fn put_not_decoded(out: &mut [u8; LINE], outcome: Result<Outcome, Refusal>) -> usize
    ensures { result ≤ 8_400 }
{
    let a = put_decode_head(out, outcome);
    session_text::put_end(out, a)
}
