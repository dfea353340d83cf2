// Enums and flags as bytes, and back: C passes and gets the numbers that include/udx.h lists.
ghost use Rattle.std.specs.Prelude.{◌≡◌, eqb, ltb};
ghost use Rattle.udx_c_numbers.specs.Bytes.{
  error_byte,
  error_of,
  state_byte,
  state_of,
  broken_if,
  is_strange,
  ending_of,
  flat_ending,
  outcome_byte,
  refusal_byte,
};

use crate::structs::FlatEnding;
use error::{Outcome, Refusal, UdxError};
use records::{Ending, StreamState};

fn error_byte(error: Option<UdxError>) -> u8
    ensures { result ≡ error_byte error }
{
    error.map_or(0, |e| e as u8)
}

fn error_of(byte: u8) -> Result<Option<UdxError>, Refusal>
    ensures { result ≡ broken_if (ltb 3 byte) (error_of byte) }
{
    match byte {
        0 => Ok(None),
        1 => Ok(Some(UdxError::ConnectionReset)),
        2 => Ok(Some(UdxError::UnexpectedEof)),
        3 => Ok(Some(UdxError::TimedOut)),
        _ => Err(Refusal::BrokenRecords),
    }
}

fn state_byte(state: StreamState) -> u8
    ensures { result ≡ state_byte state }
{
    state as u8
}

fn state_of(byte: u8) -> Result<StreamState, Refusal>
    ensures { result ≡ broken_if (ltb 3 byte) (state_of byte) }
{
    match byte {
        0 => Ok(StreamState::Open),
        1 => Ok(StreamState::LocalClosed),
        2 => Ok(StreamState::RemoteClosed),
        3 => Ok(StreamState::BothClosed),
        _ => Err(Refusal::BrokenRecords),
    }
}

fn flag_of(byte: u8) -> Result<bool, Refusal>
    ensures { result ≡ broken_if (ltb 1 byte) (eqb byte 1) }
{
    match byte {
        0 => Ok(false),
        1 => Ok(true),
        _ => Err(Refusal::BrokenRecords),
    }
}

// C may pass any byte: an invalid one is a broken record, and so refusal 1.
impl TryFrom<FlatEnding> for Ending {
    type Error = Refusal;

    ghost try_from_gives = { λ e r. r ≡ broken_if (is_strange e) (ending_of e) };

    fn try_from(e: FlatEnding) -> Result<Ending, Refusal> {
        Ok(Ending {
            error: error_of(e.error)?,
            state: state_of(e.state)?,
            ended: flag_of(e.ended)?,
        })
    }
}

// The ending that any bytes represent: an invalid error or state like the last valid one, an invalid flag like 0.
pub fn ending_of(e: FlatEnding) -> Ending
    ensures { result ≡ ending_of e }
{
    Ending {
        error: error_of(e.error).unwrap_or(Some(UdxError::TimedOut)),
        state: state_of(e.state).unwrap_or(StreamState::BothClosed),
        ended: flag_of(e.ended).unwrap_or(false),
    }
}

impl From<Ending> for FlatEnding {
    ghost from_gives = { λ e r. r ≡ flat_ending e };

    fn from(e: Ending) -> FlatEnding {
        FlatEnding {
            error: error_byte(e.error),
            state: state_byte(e.state),
            ended: e.ended as u8,
        }
    }
}

pub fn outcome_byte(outcome: Result<Outcome, Refusal>) -> u8
    ensures { result ≡ outcome_byte outcome }
{
    match outcome {
        Ok(outcome) => outcome as u8,
        Err(_) => 4,
    }
}

// The refusal's number, or 0.
pub fn refusal_byte<T: Copy>(outcome: Result<T, Refusal>) -> u8
    ensures { result ≡ refusal_byte outcome }
{
    match outcome {
        Ok(_) => 0,
        Err(why) => why.number(),
    }
}
