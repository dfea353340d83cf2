// Whole lines of a session, put at the start of a buffer. What a call answered comes as its outcome and its count: a session and a drill have
// the two in structs of their own. An end is a number here as in the script, 0 or 1: an enum would be made of it and turned back into it.
ghost use Rattle.std.specs.Prelude.{◌≡◌, ◌+◌, ◌*◌, ◌<◌, ◌≤◌, length};
ghost use Rattle.session_text.specs.Put.{put, Wrote, Counts};
ghost use Rattle.session_text.specs.Text.{name_of, line_of, bytes_line_of, script_line_of};

use crate::pieces::{put_answer, put_bytes, put_decimal, put_end, put_space, put_word};
use error::{Outcome, Refusal};

// Bytes in a line's buffer: the longest line is that of a 4,096-byte read. Whoever may put any line is lent an array of this size: its
// length is in its type, so no caller has to show that there is room.
pub const LINE: usize = 8_400;

// The name of a command, or the word before the offset of a script that ends early.
#[derive(Clone, Copy)]
pub enum Name {
    Write,
    Drive,
    Take,
    Hand,
    Read,
    Close,
    Script,
}

impl Name {
    fn word(self) -> &'static [u8]
        ensures word { result.now ≡ name_of self }
        ensures short { length result.now ≤ 6 }
    {
        match self {
            Name::Write => b"write",
            Name::Drive => b"drive",
            Name::Take => b"take",
            Name::Hand => b"hand",
            Name::Read => b"read",
            Name::Close => b"close",
            Name::Script => b"script",
        }
    }
}

// Like drill_lines' `put_name`, for this crate's enum; a trait for both would be longer.
fn put_name(out: &mut [u8], name: Name) -> usize
    requires { 6 ≤ length out.old }
    ensures { Wrote out.old out.new 0 result 6 (name_of name) }
{
    put_word(out, 0, name.word())
}

// "A line has command, end, outcome .., count"
pub fn put_line(
    out: &mut [u8],
    name: Name,
    end: u8,
    outcome: Result<Outcome, Refusal>,
    count: u64,
) -> usize
    requires { 80 ≤ length out.old }
    ensures wrote { Wrote out.old out.new 0 result 70 (line_of name end outcome count) }
    ensures counts { Counts result out.new }
{
    let a = put_name(out, name);
    let b = put_answer(out, a, end, outcome, count);
    put_end(out, b)
}

// ".. and for reads the bytes in hexadecimal or `-`"
pub fn put_bytes_line(
    out: &mut [u8],
    name: Name,
    end: u8,
    outcome: Result<Outcome, Refusal>,
    count: u64,
    bytes: &[u8],
) -> usize
    requires { 80 + 2 * length bytes.now ≤ length out.old }
    ensures wrote { Wrote out.old out.new 0 result (80 + 2 * length bytes.now)
        (bytes_line_of name end outcome count bytes.now) }
    ensures counts { Counts result out.new }
{
    let a = put_name(out, name);
    let b = put_answer(out, a, end, outcome, count);
    let c = put_space(out, b);
    let d = put_bytes(out, c, bytes);
    put_end(out, d)
}

// "the last line is then `script` and its command's offset"
pub fn put_script_line(out: &mut [u8], offset: u64) -> usize
    requires { 80 ≤ length out.old }
    ensures wrote { Wrote out.old out.new 0 result 28 (script_line_of offset) }
    ensures counts { Counts result out.new }
{
    let a = put_name(out, Name::Script);
    let b = put_space(out, a);
    let c = put_decimal(out, b, offset);
    put_end(out, c)
}
