// Parses the drill's commands. The end of a command stays a number as in the script, 0 or 1: its line prints that number.
#![tactic(auto)]

ghost use Rattle.std.specs.Prelude.{◌≡◌, ◌<◌, ◌≤◌, length, IfSome};
ghost use Rattle.std.specs.Result.{result_ok};
ghost use Rattle.drill_script.specs.Commands.{end_of, size_of, is_in_range};
ghost use Rattle.drill_script.specs.Commands.{call_of, numbered, header_in, spoil_in, command_of, parsed_of};

use packet::Header;
use rtt::Nanos;
use session_script::{byte_at, u16_at, u32_at, u64_at};

// Delivers these bytes, `length` of them, which follow the command.
#[derive(Clone, Copy)]
pub struct Raw {
    pub end: u8,
    pub clock: Nanos,
    pub length: u16,
}

// Gives an empty end these numbers.
#[derive(Clone, Copy)]
pub struct Base {
    pub end: u8,
    pub seq: u32,
    pub ack: u32,
    pub window: u32,
}

// Opens an end anew.
#[derive(Clone, Copy)]
pub struct Open {
    pub end: u8,
    pub local: u32,
    pub remote: u32,
    pub ceiling: u8,
    pub clock: Nanos,
}

// Takes into a buffer of `length` bytes.
#[derive(Clone, Copy)]
pub struct Room {
    pub end: u8,
    pub length: u16,
}

// Encodes a header into a buffer of `length` bytes.
#[derive(Clone, Copy)]
pub struct Encode {
    pub length: u8,
    pub header: Header,
}

// A call that can be made on a copy of an end.
#[derive(Clone, Copy)]
pub enum DrillCall {
    Open,
    Write,
    Drive,
    Take,
    Deliver,
    Read,
    Close,
    Look,
}

// No call has the number.
#[derive(Clone, Copy)]
pub struct UnknownCall;

// The numbers of the calls are those of docs/DRILL.md.
impl TryFrom<u8> for DrillCall {
    type Error = UnknownCall;

    ghost try_from_gives = { λ number result. result_ok result ≡ call_of number };

    fn try_from(number: u8) -> Result<Self, UnknownCall> {
        match number {
            0 => Ok(DrillCall::Open),
            1 => Ok(DrillCall::Write),
            2 => Ok(DrillCall::Drive),
            3 => Ok(DrillCall::Take),
            4 => Ok(DrillCall::Deliver),
            5 => Ok(DrillCall::Read),
            6 => Ok(DrillCall::Close),
            7 => Ok(DrillCall::Look),
            _ => Err(UnknownCall),
        }
    }
}

impl DrillCall {
    // The call with any number: a number that no call has is a look, as 7 is.
    #[tactic(auto, unfolding(crate::specs::Commands::numbered))]
    pub fn numbered(number: u8) -> DrillCall
        ensures { result ≡ numbered number }
    {
        match DrillCall::try_from(number) {
            Ok(call) => call,
            Err(_) => DrillCall::Look,
        }
    }
}

// Makes a call on a copy of an end with one thing broken. `which` stays the script's number: only drill_broken knows
// what it breaks.
#[derive(Clone, Copy)]
pub struct Spoil {
    pub end: u8,
    pub which: u8,
    pub call: DrillCall,
    pub clock: Nanos,
}

// A command of the drill.
#[derive(Clone, Copy)]
pub enum Drill {
    Raw(Raw),
    Base(Base),
    Open(Open),
    Room(Room),
    Look { end: u8 },
    Numbers { end: u8 },
    Encode(Encode),
    Decode { length: u8 },
    Spoil(Spoil),
}

// A command and how many bytes of the script it takes, with those that it counts itself.
#[derive(Clone, Copy)]
pub struct Parsed {
    pub drill: Drill,
    pub size: usize,
}

// The header to encode, after its buffer's length.
fn header_in(s: &[u8]) -> Header
    ensures { result ≡ header_in s.now }
{
    Header {
        typ: byte_at(s, 2),
        data_offset: byte_at(s, 3),
        stream_id: u32_at(s, 4),
        recv_win: u32_at(s, 8),
        seq: u32_at(s, 12),
        ack: u32_at(s, 16),
    }
}

// The call on a copy of an end; none for a number that no call has.
fn spoil_in(s: &[u8]) -> Option<Drill>
    ensures { result ≡ spoil_in s.now }
{
    Some(Drill::Spoil(Spoil {
        end: byte_at(s, 1),
        which: byte_at(s, 2),
        call: DrillCall::try_from(byte_at(s, 3)).ok()?,
        clock: Nanos(u64_at(s, 4)),
    }))
}

// The command with its operands, with a missing byte read as 0; none for what is no command of the drill, or a call that does not exist.
#[tactic(auto, unfolding(crate::specs::Commands::command_of))]
fn command(s: &[u8]) -> Option<Drill>
    ensures { result ≡ command_of s.now }
{
    let end = byte_at(s, 1);
    // The command bytes are those of docs/DRILL.md, hexadecimal there, and each is met only here.
    match byte_at(s, 0) {
        16 => Some(Drill::Raw(Raw {
            end,
            clock: Nanos(u64_at(s, 2)),
            length: u16_at(s, 10),
        })),
        17 => Some(Drill::Base(Base {
            end,
            seq: u32_at(s, 2),
            ack: u32_at(s, 6),
            window: u32_at(s, 10),
        })),
        18 => Some(Drill::Open(Open {
            end,
            local: u32_at(s, 2),
            remote: u32_at(s, 6),
            ceiling: byte_at(s, 10),
            clock: Nanos(u64_at(s, 11)),
        })),
        19 => Some(Drill::Room(Room {
            end,
            length: u16_at(s, 2),
        })),
        20 => Some(Drill::Look { end }),
        21 => Some(Drill::Numbers { end }),
        22 => Some(Drill::Encode(Encode {
            length: byte_at(s, 1),
            header: header_in(s),
        })),
        23 => Some(Drill::Decode {
            length: byte_at(s, 1),
        }),
        24 => spoil_in(s),
        _ => None,
    }
}

// The drill's command at the front of what is left of a script. None leaves it to the session: for what is no command of the drill, for a
// short operand and for one out of range. The session knows none of the drill's command bytes, so the last two end the run.
pub fn parse(s: &[u8]) -> Option<Parsed>
    ensures is { result ≡ parsed_of s.now }
    ensures within { IfSome result (λ p. (0 < p.size) × (p.size ≤ length s.now)) }
{
    let drill = command(s)?;
    let size = drill.size();
    if size <= s.len() && drill.in_range() {
        return Some(Parsed { drill, size });
    }
    None
}

impl Drill {
    // The end that runs it, or 0 where any would do.
    pub fn end(self) -> u8
        ensures { result ≡ end_of self }
    {
        match self {
            Drill::Raw(r) => r.end,
            Drill::Base(b) => b.end,
            Drill::Open(o) => o.end,
            Drill::Room(r) => r.end,
            Drill::Look { end } | Drill::Numbers { end } => end,
            Drill::Encode(_) | Drill::Decode { .. } => 0,
            Drill::Spoil(s) => s.end,
        }
    }

    // Whether the operands are in range.
    fn in_range(self) -> bool
        ensures { result ≡ is_in_range self }
    {
        let operands = match self {
            Drill::Room(r) => r.length <= 14_000,
            Drill::Encode(e) => e.length <= 64,
            Drill::Decode { length } => length <= 64,
            Drill::Spoil(s) => s.which <= 24,
            Drill::Raw(_)
            | Drill::Base(_)
            | Drill::Open(_)
            | Drill::Look { .. }
            | Drill::Numbers { .. } => true,
        };
        operands && self.end() <= 1
    }

    // How many bytes it has, with those that it counts itself.
    fn size(self) -> usize
        ensures { (result ≡ size_of self) × (0 < result) }
    {
        match self {
            Drill::Raw(r) => 12 + r.length as usize,
            Drill::Base(_) => 14,
            Drill::Open(_) => 19,
            Drill::Room(_) => 4,
            Drill::Look { .. } | Drill::Numbers { .. } => 2,
            Drill::Encode(_) => 20,
            Drill::Decode { length } => 2 + length as usize,
            Drill::Spoil(_) => 12,
        }
    }
}
