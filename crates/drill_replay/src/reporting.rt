// What the run prints.
use crate::comparing::Difference;
use crate::reading::NoScript;
use std::io;
use std::io::Write;

#[derive(Clone, Copy)]
pub struct Tally {
    pub same: u64,
    pub differ: u64,
}

// The line that starts at `at`, without its newline; empty if it has none.
fn line_at(answer: &[u8], at: usize) -> &[u8] {
    let rest = answer.get(at..).unwrap_or(&[]);
    match rest.iter().position(|b| *b == b'\n') {
        Some(n) => &rest[..n],
        None => &[],
    }
}

// Prints the first difference: its script and line, both counted from 1, and the line recorded and put.
fn print_difference<W: Write>(
    out: &mut W,
    script: u64,
    d: Difference,
    answer: &[u8],
    line: &[u8],
) -> io::Result<()> {
    let number = d.lines.wrapping_add(1);
    write!(out, "script {script}, line {number}\n  recorded: ")?;
    out.write_all(line_at(answer, d.at))?;
    out.write_all(b"\n  put:      ")?;
    match d.len {
        Some(n) => out.write_all(line.get(..n).unwrap_or(line)),
        None => out.write_all(b"\n"),
    }
}

// Counts one more script, and prints the first difference.
pub fn report<W: Write>(
    out: &mut W,
    t: Tally,
    found: Option<Difference>,
    answer: &[u8],
    line: &[u8],
) -> io::Result<Tally> {
    match found {
        None => Ok(Tally {
            same: t.same.wrapping_add(1),
            ..t
        }),
        Some(d) => {
            if t.differ == 0 {
                print_difference(out, t.same.wrapping_add(1), d, answer, line)?;
            }
            Ok(Tally {
                differ: t.differ.wrapping_add(1),
                ..t
            })
        }
    }
}

// `N same, M differ`
pub fn summary<W: Write>(out: &mut W, t: Tally, last: NoScript) -> io::Result<()> {
    let Tally { same, differ } = t;
    write!(out, "{same} same, {differ} differ\n")?;
    match last {
        NoScript::End => Ok(()),
        NoScript::Cut => out.write_all(b"the file ends in the middle of a script\n"),
    }
}
