// Reads bytes in order: whole packets from the read cursor on, and the front part of one that is longer than the room left. The receiver's
// numbers are passed by value; the held packets are words of a lent array, their bytes are in the lent incoming store.
#![tactic(auto)]

ghost use Rattle.std.specs.Prelude.{◌≡◌, ◌-◌, length, take};
ghost use Rattle.records.specs.Put.{put};
ghost use Rattle.read_bytes.specs.Reading.{
  Fit,
  Readable,
  CanPut,
  Front,
  HasRead,
  left_count,
  left_bytes,
};

use constants::HELD_WORDS;
use records::{Held, Receiver};

// What a read did.
#[derive(Clone, Copy)]
pub struct Read {
    pub receiver: Receiver,
    // Bytes put into the buffer, a front part included; the rest of the buffer is unchanged.
    pub count: usize,
    // Whether a packet was read to its last byte: the read then answers ready. A flag beside the count, since a front part puts bytes and
    // finishes no packet.
    pub finished: bool,
}

// How many bytes of a held packet are left to read.
fn left(p: Held) -> u32
    requires { Fit p }
    ensures { result ≡ left_count p }
{
    p.past.saturating_sub(1) - p.offset
}

// Puts the next `count` bytes of a held packet into buf, from `at` on. Like read_front, it takes the whole buffer and not only the part
// from `at` on, so that its contract says of the bytes before `at` that they stay.
fn put_next(buf: &mut [u8], at: usize, incoming: &[u8], p: Held, count: u32)
    requires { CanPut p incoming.now buf.old at count }
    ensures { buf.new ≡ put buf.old at (take count (left_bytes incoming.now p)) }
{
    let bytes = records_stores::payload_bytes(incoming, p.number, p.offset, p.offset + count);
    records_stores::put_at(buf, at, bytes);
}

// Puts the front part of a packet that is longer than what remains of the buffer, and moves its read offset past that part. This fills
// the buffer.
fn read_front(held: &mut [u64; HELD_WORDS], incoming: &[u8], buf: &mut [u8], at: usize, p: Held)
    requires { CanPut p incoming.now buf.old at (length buf.old - at) }
    ensures { Front p incoming.now at held.old buf.old held.new
        buf.new }
{
    let room = (buf.len() - at) as u32;
    put_next(buf, at, incoming, p, room);
    let q = Held {
        offset: p.offset + room,
        ..p
    };
    records::put_held(held, q);
}

// Puts what is held in order into buf, from the read cursor on: whole packets while they fit, and the front part of the next one. A
// finished packet's word stays: once the read cursor is past its number, it no longer counts.
pub fn read_next(r: Receiver, held: &mut [u64; HELD_WORDS], incoming: &[u8], buf: &mut [u8]) -> Read
    requires { Readable r held.old incoming.now }
    ensures { HasRead r held.old incoming.now buf.old result held.new
        buf.new }
{
    let size = buf.len();
    let mut count: usize = 0;
    let mut finished = false;
    for n in r.read_cursor..r.top {
        let receiver = Receiver {
            read_cursor: n,
            ..r
        };
        let Some(p) = records::find_held(held, n) else {
            return Read {
                receiver,
                count,
                finished,
            };
        };
        let k = left(p);
        if size - count < k as usize {
            read_front(held, incoming, buf, count, p);
            return Read {
                receiver,
                count: size,
                finished,
            };
        }
        put_next(buf, count, incoming, p, k);
        count += k as usize;
        finished = true;
    }
    Read {
        receiver: Receiver {
            read_cursor: r.top,
            ..r
        },
        count,
        finished,
    }
}
