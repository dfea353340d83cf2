// Runs the drill script on standard input on two ends and prints a line for each command (docs/DRILL.md).
#![tactic(auto)]

use drill_turn::DrillLent;
use std::io;
use std::io::Write;

// Runs the script on two fresh ends. Like the session's, with another turn: one function for both would take a closure over what is lent.
fn run<W: Write>(out: &mut W, script: &[u8], lent: &mut DrillLent) -> io::Result<()> {
    let mut ends = session_turn::open_ends(
        &lent.zero.outgoing,
        &lent.zero.incoming,
        &lent.zero.headers,
        &lent.one.outgoing,
        &lent.one.incoming,
        &lent.one.headers,
    );
    let mut at: usize = 0;
    // No `for`: only a command's turn says where the next command starts.
    while at < script.len() {
        let t = drill_turn::run_one(ends, script, at, lent);
        out.write_all(&lent.line[..t.len])?;
        ends = t.ends;
        at = t.next;
    }
    Ok(())
}

fn main(rt: HostRuntime) -> io::Result<()> {
    let mut input = [0u8; 65_536];
    let n = program_io::read_full(&mut rt.stdin(), &mut input)?;
    run(&mut rt.stdout(), &input[..n], &mut DrillLent::fresh())
}
