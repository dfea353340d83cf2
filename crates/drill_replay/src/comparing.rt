// Compares a script's lines with its recorded answer.
ghost use Rattle.std.specs.Prelude.{◌≡◌};
ghost use Rattle.drill_replay.specs.Kinds.{kind_of};

use drill_turn::DrillLent;

// What runs a script.
#[derive(Clone, Copy)]
pub enum Kind {
    Session,
    Drill,
}

// The number of a kind in the file: 0 session, 1 drill. The file has no other, and a drill runs every script, so none is refused.
impl From<u8> for Kind {
    ghost from_gives = { λ number kind. kind ≡ kind_of number };

    fn from(number: u8) -> Self {
        match number {
            0 => Kind::Session,
            _ => Kind::Drill,
        }
    }
}

// A script's first difference from its answer.
#[derive(Clone, Copy)]
pub struct Difference {
    // How many lines are the same before it.
    pub lines: u64,
    // Where the answer's next line starts, and the length of the line that was put instead, which is at the front of the lent one (a
    // length, since a slice would keep that lent); none if the script puts no further line.
    pub at: usize,
    pub len: Option<usize>,
}

// Whether the answer continues at `at` with this line.
fn goes_on(answer: &[u8], at: usize, line: &[u8]) -> bool {
    answer.get(at..).is_some_and(|rest| rest.starts_with(line))
}

// Runs a script from fresh ends up to the first line that differs from the answer's; none if all are the same.
pub fn compare(
    kind: Kind,
    script: &[u8],
    answer: &[u8],
    lent: &mut DrillLent,
) -> Option<Difference> {
    let mut ends = session_turn::open_ends(
        &lent.zero.outgoing,
        &lent.zero.incoming,
        &lent.zero.headers,
        &lent.one.outgoing,
        &lent.one.incoming,
        &lent.one.headers,
    );
    let mut from: usize = 0;
    let mut at: usize = 0;
    let mut lines: u64 = 0;
    // No `for`: only a command's turn says where the next command starts.
    while from < script.len() {
        // Here and not in a function of its own, which would copy both ends more often, and that takes stack too.
        let t = match kind {
            Kind::Session => session_turn::run_one(
                ends,
                script,
                from,
                &mut lent.zero,
                &mut lent.one,
                &mut lent.scratch,
                &mut lent.line,
            ),
            Kind::Drill => drill_turn::run_one(ends, script, from, lent),
        };
        if !goes_on(answer, at, &lent.line[..t.len]) {
            return Some(Difference {
                lines,
                at,
                len: Some(t.len),
            });
        }
        at = at.wrapping_add(t.len);
        lines = lines.wrapping_add(1);
        ends = t.ends;
        from = t.next;
    }
    if at == answer.len() {
        None
    } else {
        Some(Difference {
            lines,
            at,
            len: None,
        })
    }
}
