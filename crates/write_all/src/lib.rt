// Sending: the pieces of a write are stored and queued one after another while they may go (poll_write over send_data_packet). Only the
// words and the store that a piece writes are lent.
#![tactic(auto)]

ghost use Rattle.std.specs.Prelude.{length};
ghost use Rattle.write_all.specs.Write.{Ready, Writes};

use constants::{QUEUE_WORDS, SENT_WORDS, UDX_MAX_DATA_SIZE};
pub use write_piece::Outbox;
use write_piece::{goes, send_data_packet};

#[derive(Clone, Copy)]
pub struct Written {
    pub outbox: Outbox,
    // Bytes accepted.
    pub count: usize,
}

// poll_write's loop: pieces go until one does not or no byte is left.
pub fn write_pieces(
    o: Outbox,
    remote: u32,
    ack: u32,
    sent: &mut [u64; SENT_WORDS],
    queue: &mut [u64; QUEUE_WORDS],
    outgoing: &mut [u8],
    bytes: &[u8],
) -> Written
    requires { Ready o (length outgoing.old) }
    ensures { Writes o remote ack bytes.now sent.old queue.old
        outgoing.old result sent.new queue.new outgoing.new }
{
    let mut out = o;
    let mut count = 0;
    for piece in bytes.chunks(UDX_MAX_DATA_SIZE) {
        if !goes(out.sender, piece.len()) {
            return Written { outbox: out, count };
        }
        out = send_data_packet(out, remote, ack, sent, queue, outgoing, piece);
        count += piece.len();
    }
    Written { outbox: out, count }
}
