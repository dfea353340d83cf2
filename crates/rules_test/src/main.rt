// Checks records with refusal 1 and prints its answers. Standard input is a list of 10-byte commands: a number, an index and an eight-byte
// value, little-endian. tests/cases/rules.py generates the commands and, from 01's rules, the expected answers.
//
//   0  fresh records        1  keep the records        2  back to the kept records
//   3  print the answer     4  print the first `index` bytes of the value
//   16 and more: set a number of the records, a total or a word (see `set`)
#![tactic(auto)]

use constants::{
    HEADER_STORE, HELD_WORDS, INCOMING_STORE, OUTGOING_STORE, QUEUE_WORDS, SENT_WORDS,
};
use records::{Stream, Totals};
use rtt::Nanos;
use std::io;
use std::io::Write;

// All that refusal 1 reads. Not a session's end: that has kept datagrams too.
#[derive(Clone, Copy)]
struct Records {
    stream: Stream,
    totals: Totals,
    sent: [u64; SENT_WORDS],
    held: [u64; HELD_WORDS],
    queue: [u64; QUEUE_WORDS],
}

#[derive(Drop)]
struct Tester {
    clean: Records,
    now: Records,
    kept: Records,
}

impl Records {
    fn fresh() -> Records {
        let opened = records::open::open(
            1,
            2,
            10,
            Nanos(0),
            &[0; OUTGOING_STORE],
            &[0; INCOMING_STORE],
            &[0; HEADER_STORE],
        );
        Records {
            stream: opened.stream,
            totals: opened.totals,
            sent: [0; SENT_WORDS],
            held: [0; HELD_WORDS],
            queue: [0; QUEUE_WORDS],
        }
    }

    // Sets a number, a total or, at `index`, a word. The fields have the numbers that tests/cases/rules.py gives them; names for them would
    // be met only here. A cast may lose nothing, so what does not fit is dropped first, in
    // a line as in bench_calls.
    fn set(&mut self, field: u8, index: u8, v: u64) {
        let i = index as usize;
        let x = (v % 4_294_967_296) as u32;
        match field {
            16 => self.stream.ids.segments = (v % 256) as u8,
            17 => self.stream.sender.seq = x,
            18 => self.stream.sender.remote_acked = x,
            19 => self.stream.sender.largest_ack = x,
            20 => self.stream.sender.inflight = x,
            21 => self.stream.sender.cwnd = x,
            22 => self.stream.receiver.ack = x,
            23 => self.stream.receiver.read_cursor = x,
            24 => self.stream.receiver.top = x,
            25 => self.stream.queue.count = x,
            26 => self.stream.queue.left = x,
            27 => self.stream.queue.states = x,
            28 => self.stream.queue.gone = x,
            29 => self.stream.timing.rtt.srtt = Nanos(v),
            30 => self.stream.timing.rtt.rttvar = Nanos(v),
            31 => self.stream.timing.rtt.rto = Nanos(v),
            32 => self.stream.clocks.last = Nanos(v),
            33 => self.stream.clocks.drive = Nanos(v),
            34 => self.totals.inflight_packets = v,
            35 => self.totals.inflight_bytes = v,
            36 => self.sent[i % SENT_WORDS] = v,
            37 => self.held[i % HELD_WORDS] = v,
            38 => self.queue[i % QUEUE_WORDS] = v,
            _ => {}
        }
    }

    fn are_kept(&self) -> bool {
        rules_stream::ok_stream(
            self.stream,
            self.totals,
            &self.sent,
            &self.held,
            &self.queue,
        )
    }
}

fn say<W: Write>(out: &mut W, r: &Records) -> io::Result<()> {
    if r.are_kept() {
        out.write_all(b" kept\n")
    } else {
        out.write_all(b" broken\n")
    }
}

fn print<W: Write>(out: &mut W, text: &[u8], size: u8) -> io::Result<()> {
    match text.get(..size as usize) {
        Some(part) => out.write_all(part),
        None => Ok(()),
    }
}

impl Tester {
    // Runs one command.
    fn step<W: Write>(&mut self, out: &mut W, command: &[u8; 10]) -> io::Result<()> {
        let [op, index, a, b, c, d, e, f, g, h] = *command;
        let operand = [a, b, c, d, e, f, g, h];
        match op {
            0 => self.now = self.clean,
            1 => self.kept = self.now,
            2 => self.now = self.kept,
            3 => say(out, &self.now)?,
            4 => print(out, &operand, index)?,
            _ => self.now.set(op, index, u64::from_le_bytes(operand)),
        }
        Ok(())
    }
}

fn run<W: Write>(out: &mut W, input: &[u8]) -> io::Result<()> {
    let clean = Records::fresh();
    let mut t = Tester {
        clean,
        now: clean,
        kept: clean,
    };
    let (commands, _) = input.as_chunks();
    for command in commands {
        t.step(out, command)?;
    }
    Ok(())
}

fn main(rt: HostRuntime) -> io::Result<()> {
    let mut input = [0u8; 65_536];
    let n = program_io::read_full(&mut rt.stdin(), &mut input)?;
    run(&mut rt.stdout(), &input[..n])
}
