// Runs the script on standard input between two ends and writes a line for each command.
#![tactic(auto)]

use session_text::LINE;
use session_turn::{EndStores, Ends, SCRATCH};
use std::io;
use std::io::Write;

// Like the drill's, with another turn: one function for both would take a closure over what is lent.
fn run<W: Write>(
    out: &mut W,
    fresh: Ends,
    script: &[u8],
    zero: &mut EndStores,
    one: &mut EndStores,
    scratch: &mut [u8; SCRATCH],
    line: &mut [u8; LINE],
) -> io::Result<()> {
    let mut ends = fresh;
    let mut at: usize = 0;
    // No `for`: only a command's turn says where the next command starts.
    while at < script.len() {
        let t = session_turn::run_one(ends, script, at, zero, one, scratch, line);
        out.write_all(&line[..t.len])?;
        ends = t.ends;
        at = t.next;
    }
    Ok(())
}

fn main(rt: HostRuntime) -> io::Result<()> {
    let mut input = [0u8; 65_536];
    let n = program_io::read_full(&mut rt.stdin(), &mut input)?;
    let mut zero = EndStores::fresh();
    let mut one = EndStores::fresh();
    let mut scratch = [0u8; SCRATCH];
    let mut line = [0u8; LINE];
    let ends = session_turn::open_ends(
        &zero.outgoing,
        &zero.incoming,
        &zero.headers,
        &one.outgoing,
        &one.incoming,
        &one.headers,
    );
    run(
        &mut rt.stdout(),
        ends,
        &input[..n],
        &mut zero,
        &mut one,
        &mut scratch,
        &mut line,
    )
}
