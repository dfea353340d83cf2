// The commands of a session script: a command byte, then its operands, little-endian. Places count from the command byte. A missing byte
// reads as 0, so callers need not check the length.
#![tactic(auto)]

ghost use Rattle.std.specs.Prelude.{◌≡◌, ℕ, ◌+◌, ◌<◌, ◌≤◌, get_or};
ghost use Rattle.session_script.specs.Script.{width_of, u16_at, u32_at, u64_at, read_of, operands_of, Parses};

use rtt::Nanos;

// One command with its operands. Each has the end that it is for, as in 01's list. The end stays a number as in the script,
// 0 or 1: lines print that number.
#[derive(Clone, Copy)]
pub enum Command {
    Write { end: u8, length: u16, fill: u8 },
    Drive { end: u8, clock: Nanos },
    Take { end: u8 },
    Hand { end: u8, number: u16, clock: Nanos },
    Read { end: u8, length: u16 },
    Close { end: u8 },
}

// A command and how many bytes of the script it takes.
#[derive(Clone, Copy)]
pub struct Parsed {
    pub command: Command,
    pub size: usize,
}

// How many bytes of operands a command byte has. "Any other command byte ends the run": 01 names this form, a match on the command number,
// each with its operand width.
#[tactic(auto, unfolding(crate::specs::Script::width_of))]
pub fn operand_width(command: u8) -> Option<usize>
    ensures { result ≡ width_of command }
{
    match command {
        0 => None,
        1 => Some(4),
        2 => Some(9),
        3 => Some(1),
        4 => Some(11),
        5 => Some(3),
        6 => Some(1),
        7..=255 => None,
    }
}

pub fn byte_at(s: &[u8], i: usize) -> u8
    ensures { result ≡ get_or s.now i 0 }
{
    s.get(i).copied().unwrap_or(0)
}

// The N bytes from a place in a command on. `array::from_fn` is no plainer: it promises a chain of calls, and that the element at i is the
// byte at i would take an induction along it, where this loop takes one line of invariant.
fn bytes_at<const N: usize>(s: &[u8], place: u8) -> [u8; N]
    requires { N ≤ 8 }
    ensures { (i : ℕ) → i < N → get_or result i 0 ≡ get_or s.now (place + i) 0 }
{
    let mut bytes = [0; N];
    for i in 0..N {
        bytes[i] = byte_at(s, place as usize + i);
    }
    bytes
}

// The two-byte number at a place in a command. It and the next two are a line each over `bytes_at`: from_le_bytes is a method of each type
// and of no trait, so one generic function would need a trait of its own.
pub fn u16_at(s: &[u8], place: u8) -> u16
    ensures { result ≡ u16_at s.now place }
{
    u16::from_le_bytes(bytes_at(s, place))
}

// The four-byte number.
pub fn u32_at(s: &[u8], place: u8) -> u32
    ensures { result ≡ u32_at s.now place }
{
    u32::from_le_bytes(bytes_at(s, place))
}

// The eight-byte number.
pub fn u64_at(s: &[u8], place: u8) -> u64
    ensures { result ≡ u64_at s.now place }
{
    u64::from_le_bytes(bytes_at(s, place))
}

// "a read length above 4,096" ends the run
fn read_command(end: u8, size: u16) -> Option<Command>
    ensures { result ≡ read_of end size }
{
    if 4_096 < size {
        return None;
    }
    Some(Command::Read { end, length: size })
}

// The command with this byte, for this end, at the front of s, which has all its operands; none ends the run.
#[tactic(auto, unfolding(crate::specs::Script::operands_of))]
fn operands(command: u8, end: u8, s: &[u8]) -> Option<Command>
    ensures { result ≡ operands_of command end s.now }
{
    match command {
        1 => Some(Command::Write {
            end,
            length: u16_at(s, 2),
            fill: byte_at(s, 4),
        }),
        2 => Some(Command::Drive {
            end,
            clock: Nanos(u64_at(s, 2)),
        }),
        3 => Some(Command::Take { end }),
        4 => Some(Command::Hand {
            end,
            number: u16_at(s, 2),
            clock: Nanos(u64_at(s, 4)),
        }),
        5 => read_command(end, u16_at(s, 2)),
        6 => Some(Command::Close { end }),
        _ => None,
    }
}

// The command at the front of the rest of a script; none, which ends the run, also for a short operand or an end above 1.
#[tactic(auto, unfolding(crate::specs::Script::parsed_of))]
pub fn parse(s: &[u8]) -> Option<Parsed>
    ensures { Parses s.now result }
{
    let command = byte_at(s, 0);
    let end = byte_at(s, 1);
    let width = operand_width(command)?;
    if width < s.len() && end <= 1 {
        return Some(Parsed {
            command: operands(command, end, s)?,
            size: width + 1,
        });
    }
    None
}
