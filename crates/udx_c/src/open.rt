// Open for C.
ghost use Rattle.udx_c.specs.Crosses.{FlatOpens};

use rtt::Nanos;
use udx_c_numbers::FlatStep;

pub fn udx_open(
    local: u32,
    remote: u32,
    segments: u8,
    clock: u64,
    outgoing: &[u8],
    incoming: &[u8],
    headers: &[u8],
) -> FlatStep
    ensures { FlatOpens local remote segments clock outgoing.now incoming.now
        headers.now result }
{
    udx::open::open(
        local,
        remote,
        segments,
        Nanos(clock),
        outgoing,
        incoming,
        headers,
    )
    .into()
}
