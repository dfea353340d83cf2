// The pieces of a line.
ghost use Rattle.std.specs.Prelude.{◌≡◌, ◌+◌, ◌*◌, ◌<◌, ◌≤◌, length};
ghost use Rattle.session_text.specs.Put.{put, Wrote};
ghost use Rattle.session_text.specs.Text.{decimal_of, hex_of, bytes_of, outcome_of, space_of, end_of, answer_of};

use error::{Outcome, Refusal};
use itoa::Buffer;

// A word, byte for byte.
pub fn put_word(out: &mut [u8], at: usize, word: &[u8]) -> usize
    requires { at + length word.now ≤ length out.old }
    ensures { (result ≡ at + length word.now) ×
        (out.new ≡ put out.old at word.now) }
{
    let end = at + word.len();
    out[at..end].copy_from_slice(word);
    end
}

// A number in decimal.
pub fn put_decimal(out: &mut [u8], at: usize, n: u64) -> usize
    requires { at + 20 ≤ length out.old }
    ensures { Wrote out.old out.new at result 20 (decimal_of n) }
{
    put_word(out, at, Buffer::new().format(n).as_bytes())
}

// Bytes in hexadecimal. `encode_to_slice` refuses only a part that is not two bytes for each of `bytes`.
#[tactic(auto, using(crate::proofs::Laws::hex_put))]
fn put_hex(out: &mut [u8], at: usize, bytes: &[u8]) -> usize
    requires { at + 2 * length bytes.now ≤ length out.old }
    ensures { (result ≡ at + length (hex_of bytes.now)) ×
        (out.new ≡ put out.old at (hex_of bytes.now)) }
{
    let end = at + 2 * bytes.len();
    hex::encode_to_slice(bytes, &mut out[at..end]).unwrap();
    end
}

// Bytes in hexadecimal, or `-` if there are none.
#[tactic(auto, using(crate::proofs::Laws::hex_length), unfolding(crate::specs::Text::bytes_of))]
pub fn put_bytes(out: &mut [u8], at: usize, bytes: &[u8]) -> usize
    requires { at + 2 * length bytes.now < length out.old }
    ensures { Wrote out.old out.new at result (2 * length bytes.now + 1)
        (bytes_of bytes.now) }
{
    if bytes.is_empty() {
        return put_word(out, at, b"-");
    }
    put_hex(out, at, bytes)
}

// "outcome (ok, wait, done, none or the refusal's number)"
pub fn put_outcome(out: &mut [u8], at: usize, outcome: Result<Outcome, Refusal>) -> usize
    requires { at + 20 ≤ length out.old }
    ensures { Wrote out.old out.new at result 20 (outcome_of outcome) }
{
    match outcome {
        Ok(Outcome::Ready) => put_word(out, at, b"ok"),
        Ok(Outcome::Waiting) => put_word(out, at, b"wait"),
        Ok(Outcome::Done) => put_word(out, at, b"done"),
        Ok(Outcome::Nothing) => put_word(out, at, b"none"),
        Err(why) => put_decimal(out, at, why.number() as u64),
    }
}

// The space before the next word, and the end of a line: a function each, so that a line reads as 01's does.
pub fn put_space(out: &mut [u8], at: usize) -> usize
    requires { at < length out.old }
    ensures { Wrote out.old out.new at result 1 space_of }
{
    put_word(out, at, b" ")
}

// The end of a line.
pub fn put_end(out: &mut [u8], at: usize) -> usize
    requires { at < length out.old }
    ensures { Wrote out.old out.new at result 1 end_of }
{
    put_word(out, at, b"\n")
}

// What follows a command's name: end, outcome and count, each after a space.
pub fn put_answer(
    out: &mut [u8],
    at: usize,
    end: u8,
    outcome: Result<Outcome, Refusal>,
    count: u64,
) -> usize
    requires { at + 63 ≤ length out.old }
    ensures { Wrote out.old out.new at result 63 (answer_of end outcome count) }
{
    let a = put_space(out, at);
    let b = put_decimal(out, a, end as u64);
    let c = put_space(out, b);
    let d = put_outcome(out, c, outcome);
    let e = put_space(out, d);
    put_decimal(out, e, count)
}
