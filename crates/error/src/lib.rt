// Why a stream ended and what a call answers.
#![tactic(auto)]

ghost use Rattle.std.specs.Prelude.{◌≡◌};
ghost use Rattle.error.specs.Answers.{number_of, met, error_or};

// The Rust's UdxError. The discriminants are C's numbers. A running stream has no error.
#[derive(Clone, Copy, PartialEq, Eq)]
pub enum UdxError {
    ConnectionReset = 1,
    UnexpectedEof,
    TimedOut,
}

// 01's refusals, in checking order, which numbers them from 1.
#[derive(Clone, Copy, PartialEq, Eq)]
pub enum Refusal {
    // A store has the wrong length, or a rule of the records is broken.
    BrokenRecords = 1,
    // Encode with under 20 bytes, take with under 14,000.
    ShortBuffer,
    // Open with a segment ceiling outside 1 to 10.
    SegmentCeiling,
    // A clock of 2^60 or more, or below the last accepted one.
    BadClock,
    // Deliver, drive or close after done.
    AfterDone,
    // Batches of the last drive remain to be taken.
    BatchesLeft,
    // A datagram without a header.
    BadHeader,
    // A header with another stream's id.
    OtherStream,
    // A payload of more than 1,380 bytes.
    LongPayload,
    // A header that acknowledges a packet that was never sent.
    AckPastSeq,
    // DATA with the one number that no packet may have.
    SeqEnd,
    // DATA past the slots of the incoming store.
    PastIncoming,
    // The queue has no room for the state packets that may follow.
    StateQueueFull,
    // Write or read meets the stream's error.
    ConnectionReset,
    UnexpectedEof,
    TimedOut,
    // A write when the sequence numbers are used up.
    SeqExhausted,
}

// The outcome of a call that is not refused, beside the count of bytes accepted, taken or put; in the order of C's numbers for it.
#[derive(Clone, Copy, PartialEq, Eq)]
pub enum Outcome {
    Ready,
    Waiting,
    Done,
    Nothing,
}

impl Refusal {
    // The refusal's number in 01, which C gets and a session's line prints.
    pub fn number(self) -> u8
        ensures { result ≡ number_of self }
    {
        self as u8
    }
}

// Write and read meet the stream's error as a refusal.
impl From<UdxError> for Refusal {
    ghost from_gives = { λ error why. why ≡ met error };

    fn from(error: UdxError) -> Refusal {
        match error {
            UdxError::ConnectionReset => Refusal::ConnectionReset,
            UdxError::UnexpectedEof => Refusal::UnexpectedEof,
            UdxError::TimedOut => Refusal::TimedOut,
        }
    }
}

// The refusal for the stream's error, or `otherwise` if it has none.
pub fn error_or(error: Option<UdxError>, otherwise: Outcome) -> Result<Outcome, Refusal>
    ensures { result ≡ error_or error otherwise }
{
    match error {
        Some(met) => Err(met.into()),
        None => Ok(otherwise),
    }
}
