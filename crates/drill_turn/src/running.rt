// Runs one command of a drill script.
ghost use Rattle.std.specs.Prelude.{length};
ghost use Rattle.session_turn.specs.Turned.{Turned};

use crate::acts::act;
use crate::lent::DrillLent;
use drill_script::Parsed;
use session_turn::{Ends, Turn};

// Runs the command at `at`. Past the script's end nothing happens and the line is empty.
pub fn run_one(mut ends: Ends, script: &[u8], at: usize, lent: &mut DrillLent) -> Turn
    ensures { Turned (length script.now) at result }
{
    let DrillLent {
        zero,
        one,
        scratch,
        spare,
        line,
    } = lent;
    let s = script.get(at..).unwrap_or(&[]);
    let Some(Parsed { drill, size }) = drill_script::parse(s) else {
        return session_turn::run_one(ends, script, at, zero, one, scratch, line);
    };
    let len = if drill.end() == 0 {
        act(&mut ends.zero, drill, s, zero, scratch, spare, line)
    } else {
        act(&mut ends.one, drill, s, one, scratch, spare, line)
    };
    Turn {
        ends,
        next: at + size,
        len,
    }
}
