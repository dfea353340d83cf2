// The congestion window: growth (handle_incoming) and halving (poll_check_timeouts).
ghost use Rattle.std.specs.Prelude.{◌≡◌};
ghost use Rattle.rtt.specs.Window.{grown, halved};

use constants::{CWND_MAX, SSTHRESH, UDX_MTU};

// The window after a delivery with a new ack. It stops at CWND_MAX, the largest u32.
#[tactic(auto, unfolding(crate::specs::Window::grown))]
pub fn grow(cwnd: u32) -> u32
    ensures { result ≡ grown cwnd }
{
    let step = if cwnd < SSTHRESH {
        UDX_MTU
    } else {
        (UDX_MTU * UDX_MTU / cwnd).max(1)
    };
    cwnd.saturating_add(step).min(CWND_MAX)
}

// The window after a due timeout.
#[tactic(auto, unfolding(crate::specs::Window::halved))]
pub fn halve(cwnd: u32) -> u32
    ensures { result ≡ halved cwnd }
{
    (cwnd / 2).max(UDX_MTU)
}
