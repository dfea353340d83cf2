// Header coding for C.
ghost use Rattle.std.specs.Prelude.{◌≡◌};
ghost use Rattle.packet.specs.Header.{decoded};
ghost use Rattle.udx_c.specs.Coded.{FlatEncodes, flat_decoded, flat_header, header_of};

use error::{Outcome, Refusal};
use packet::Header;
use udx_c_numbers::{outcome_byte, refusal_byte};

#[repr(C)]
#[derive(Clone, Copy, Default)]
pub struct FlatHeader {
    pub stream_id: u32,
    pub recv_win: u32,
    pub seq: u32,
    pub ack: u32,
    pub typ: u8,
    pub data_offset: u8,
}

// C has no Result: the header is all 0 if it is refused.
#[repr(C)]
#[derive(Clone, Copy)]
pub struct FlatDecoded {
    pub header: FlatHeader,
    pub outcome: u8,
    pub refusal: u8,
}

impl From<FlatHeader> for Header {
    ghost from_gives = { λ f r. r ≡ header_of f };

    fn from(f: FlatHeader) -> Header {
        Header {
            typ: f.typ,
            data_offset: f.data_offset,
            stream_id: f.stream_id,
            recv_win: f.recv_win,
            seq: f.seq,
            ack: f.ack,
        }
    }
}

impl From<Header> for FlatHeader {
    ghost from_gives = { λ h r. r ≡ flat_header h };

    fn from(h: Header) -> FlatHeader {
        FlatHeader {
            stream_id: h.stream_id,
            recv_win: h.recv_win,
            seq: h.seq,
            ack: h.ack,
            typ: h.typ,
            data_offset: h.data_offset,
        }
    }
}

impl From<Result<Header, Refusal>> for FlatDecoded {
    ghost from_gives = { λ decoded r. r ≡ flat_decoded decoded };

    fn from(decoded: Result<Header, Refusal>) -> FlatDecoded {
        FlatDecoded {
            header: decoded.map_or(FlatHeader::default(), FlatHeader::from),
            outcome: outcome_byte(decoded.map(|_| Outcome::Ready)),
            refusal: refusal_byte(decoded),
        }
    }
}

// Returns 0, or the refusal's number.
pub fn udx_encode(header: FlatHeader, buf: &mut [u8]) -> u8
    ensures { FlatEncodes header buf.old buf.new result }
{
    refusal_byte(Header::from(header).encode(buf))
}

pub fn udx_decode(buf: &[u8]) -> FlatDecoded
    ensures { result ≡ flat_decoded (decoded buf.now) }
{
    Header::from_bytes(buf).into()
}
