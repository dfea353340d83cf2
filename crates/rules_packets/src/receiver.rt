// The rules of the held packets and of the receiver's numbers.
ghost use Rattle.std.specs.Prelude.{◌≡◌, ◌+◌, ◌-◌, ◌≤◌};
ghost use Rattle.rules_packets.specs.Packets.{every_from, held_ok, ok_receiver};

use constants::{HELD_WORDS, STORE_SLOTS};
use records::Receiver;

const SLOTS: u64 = STORE_SLOTS as u64;

// Checks the held packets, which are from the cursor to below top, each in the slot of its number.
fn all_held(cursor: u32, top: u32, held: &[u64; HELD_WORDS]) -> bool
    requires { top ≤ cursor + 32 }
    ensures { result ≡ every_from (top - cursor) cursor (held_ok cursor held.now) }
{
    for n in cursor..top {
        let p = records::get_held(held, n);
        // "at most 1,380 held"
        let short = records::is_short(held, n, 1_380);
        // "offsets fit the lengths"; joined by `&`, which is faster here than a branch for each.
        let kept = short & (p.offset < p.past);
        // is_held comes last: most words pass the test above.
        if !kept && records::is_held(p, n) {
            return false;
        }
    }
    true
}

pub fn ok_receiver(r: Receiver, held: &[u64; HELD_WORDS]) -> bool
    ensures { result ≡ ok_receiver r held.now }
{
    let far = r.read_cursor as u64 + SLOTS;
    // Held numbers are below top, which is at most 32 past the read cursor.
    if far < r.top as u64 {
        return false;
    }
    let kept = all_held(r.read_cursor, r.top, held);
    // "read cursor ≤ ack ≤ read cursor + 32"
    let ack_in_range = r.read_cursor <= r.ack && r.ack as u64 <= far;
    ack_in_range && r.read_cursor <= r.top && kept
}
