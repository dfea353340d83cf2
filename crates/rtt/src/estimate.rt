// The round-trip estimate: the part of handle_remote_ack_for_packet that recalculates timings.
ghost use Rattle.std.specs.Prelude.{◌≡◌, ◌^◌, ◌<◌};
ghost use Rattle.rtt.specs.Estimate.{fresh, timed, sampled, InRange, Samples};

use crate::nanos::Nanos;
use constants::{RTO_MIN, UDX_CLOCK_GRANULARITY};

#[derive(Clone, Copy)]
pub struct Rtt {
    // Below 2^60. 0 until the first sample, and after samples of 0. 01 tests the number ("while srtt is 0"): an Option would answer
    // otherwise.
    pub srtt: Nanos,
    // Below 2^60.
    pub rttvar: Nanos,
    // 1,000 ms to 5 x 2^60.
    pub rto: Nanos,
}

impl Rtt {
    // The estimate of a stream that has no sample yet (UdxStream::connect).
    pub fn new() -> Rtt
        ensures { result ≡ fresh }
    {
        Rtt {
            srtt: Nanos(0),
            rttvar: Nanos(0),
            rto: Nanos(RTO_MIN),
        }
    }

    // srtt and rttvar with the rto that follows from them.
    fn with_rto(srtt: Nanos, rttvar: Nanos) -> Rtt
        requires { (srtt.0 < 2 ^ 60) × (rttvar.0 < 2 ^ 60) }
        ensures { result ≡ timed srtt.0 rttvar.0 }
    {
        let spread = Nanos(UDX_CLOCK_GRANULARITY).max(Nanos(4 * rttvar.0));
        let rto = Nanos(RTO_MIN).max(Nanos(srtt.0 + spread.0));
        Rtt { srtt, rttvar, rto }
    }

    // The estimate after a sample.
    #[tactic(auto, unfolding(crate::specs::Estimate::sampled))]
    pub fn sample(self, rtt: Nanos) -> Rtt
        requires { InRange self × (rtt.0 < 2 ^ 60) }
        ensures { Samples self rtt.0 result }
    {
        if self.srtt.0 == 0 {
            return Rtt::with_rto(rtt, Nanos(rtt.0 / 2));
        }
        let delta = self.srtt.abs_diff(rtt);
        Rtt::with_rto(
            Nanos((7 * self.srtt.0 + rtt.0) / 8),
            Nanos((3 * self.rttvar.0 + delta.0) / 4),
        )
    }
}
