// One command of a script.
ghost use Rattle.std.specs.Prelude.{◌≡◌, ◌<◌, ◌≤◌, length};
ghost use Rattle.session_kept.specs.Kept.{kept_of};
ghost use Rattle.session_ends.specs.Calls.{stores};
ghost use Rattle.session_text.specs.Put.{Wrote};
ghost use Rattle.session_text.specs.Text.{script_line_of};
ghost use Rattle.session_commands.specs.Acts.{LaidEnd};
ghost use Rattle.session_turn.specs.Session.{is_for, turn};
ghost use Rattle.session_turn.specs.Turned.{Turned, lends, sides_of, Plays};

use session_commands::{EndStores, SCRATCH, act};
use session_ends::SessionEnd;
use session_kept::Kept;
use session_script::Command;
use session_text::LINE;

#[derive(Clone, Copy)]
pub struct Ends {
    pub zero: SessionEnd,
    pub one: SessionEnd,
}

// The ends after a command, where the next one starts, and the length of the command's line (as in `Acted`). If the run ends, the next one
// starts at the script's end, where a loop over the script stops anyway.
#[derive(Clone, Copy)]
pub struct Turn {
    pub ends: Ends,
    pub next: usize,
    pub len: usize,
}

// Whether the command is for this end and can run there, as a hand of "a datagram not kept" cannot. No wildcard: a new command must be
// placed here.
fn is_for(number: u8, command: Command, theirs: Kept) -> bool
    ensures { (store : _) → result ≡ is_for number command (kept_of theirs store) }
{
    match command {
        Command::Hand {
            end,
            number: which,
            ..
        } => end == number && session_kept::is_kept(theirs, which),
        Command::Write { end, .. }
        | Command::Drive { end, .. }
        | Command::Take { end }
        | Command::Read { end, .. }
        | Command::Close { end } => end == number,
    }
}

// Ends the run at the command at `at`. Inlined: else `run_one` zeroes its answer, 4,080 bytes, before each command.
#[inline(always)]
pub fn stop(ends: Ends, size: usize, at: usize, line: &mut [u8; LINE]) -> Turn
    ensures { (result.ends ≡ ends) ×
        ((result.next ≡ size) × Wrote line.old line.new 0 result.len 28 (script_line_of at)) }
{
    let len = session_text::put_script_line(line, at as u64);
    Turn {
        ends,
        next: size,
        len,
    }
}

// Runs the command at `at`. Past the script's end nothing happens and the line is empty. What is lent stays apart, as `RunOne`
// (proofs/Contracts.antt) and what is derived from it take it one by one.
pub fn run_one(
    mut ends: Ends,
    script: &[u8],
    at: usize,
    zero: &mut EndStores,
    one: &mut EndStores,
    scratch: &mut [u8; SCRATCH],
    line: &mut [u8; LINE],
) -> Turn
    ensures turned { Turned (length script.now) at result }
    ensures plays { at < length script.now → LaidEnd ends.zero
        (stores zero.old.outgoing zero.old.incoming zero.old.headers) → LaidEnd
        ends.one (stores one.old.outgoing one.old.incoming one.old.headers) →
        Plays
        (turn script.now at
        (sides_of ends
        (lends zero.old.outgoing zero.old.incoming zero.old.headers
        zero.old.kept one.old.outgoing one.old.incoming
        one.old.headers one.old.kept)))
        result
        (lends zero.new.outgoing zero.new.incoming zero.new.headers
        zero.new.kept one.new.outgoing one.new.incoming one.new.headers
        one.new.kept)
        line.new }
{
    let size = script.len();
    if size <= at {
        return Turn {
            ends,
            next: size,
            len: 0,
        };
    }
    let Some(p) = session_script::parse(&script[at..]) else {
        return stop(ends, size, at, line);
    };
    let next = at + p.size;
    // One block for each end: a shared one would have to choose which end is lent to write, which to read, and where the answer goes.
    if is_for(0, p.command, ends.one.kept) {
        let a = act(
            ends.zero,
            ends.one.kept,
            p.command,
            zero,
            &one.kept,
            scratch,
            line,
        );
        ends.zero = a.end;
        return Turn {
            ends,
            next,
            len: a.len,
        };
    }
    if is_for(1, p.command, ends.zero.kept) {
        let a = act(
            ends.one,
            ends.zero.kept,
            p.command,
            one,
            &zero.kept,
            scratch,
            line,
        );
        ends.one = a.end;
        return Turn {
            ends,
            next,
            len: a.len,
        };
    }
    stop(ends, size, at, line)
}
