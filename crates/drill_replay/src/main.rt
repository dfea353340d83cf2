// Runs every script of the file scripts.bin from fresh ends and compares each line with the recorded answer. For each script the file has
// its kind (1 byte: 0 session, 1 drill), its length (4, little-endian), its answer's length (4), the script and the answer.
#![tactic(auto)]

mod comparing;
mod reading;
mod reporting;

use comparing::compare;
use drill_turn::DrillLent;
use reading::{NoScript, read_next};
use reporting::{Tally, report, summary};
use std::fs::File;
use std::io;
use std::io::{Read, Write};

// The most bytes that a script or an answer may have: each is read into a buffer of this size, since there is no heap.
const MOST: usize = 65_536;

// Runs all scripts of the file, a million at most, and returns why there was no next.
fn run<R: Read, W: Write>(
    from: &mut R,
    out: &mut W,
    script: &mut [u8; MOST],
    answer: &mut [u8; MOST],
    lent: &mut DrillLent,
) -> io::Result<(Tally, NoScript)> {
    let mut tally = Tally { same: 0, differ: 0 };
    for _ in 0..1_000_000 {
        let next = match read_next(from, script, answer)? {
            Ok(next) => next,
            Err(why) => return Ok((tally, why)),
        };
        let found = compare(next.kind, next.script, next.answer, lent);
        tally = report(out, tally, found, next.answer, &lent.line)?;
    }
    Ok((tally, NoScript::End))
}

fn main(rt: HostRuntime) -> io::Result<()> {
    let mut from = match File::open(&rt, "scripts.bin") {
        Ok(file) => file,
        Err(e) => return eprintln!(rt; "scripts.bin: {e}"),
    };
    let mut out = rt.stdout();
    let mut script = [0u8; MOST];
    let mut answer = [0u8; MOST];
    let mut lent = DrillLent::fresh();
    let (tally, last) = run(&mut from, &mut out, &mut script, &mut answer, &mut lent)?;
    summary(&mut out, tally, last)
}
