// The 20 bytes in front of every payload.
ghost use Rattle.std.specs.Prelude.{◌≡◌};
ghost use Rattle.packet.specs.Header.{header_bytes, decoded, Encodes, has_type};

use crate::little_endian::read_u32_le;
use constants::{
    UDX_HEADER_DATA, UDX_HEADER_END, UDX_HEADER_SACK, UDX_HEADER_SIZE, UDX_MAGIC_BYTE, UDX_VERSION,
};
use error::Refusal;

// The Rust's Header; type and data offset are one byte each, as on the wire.
#[derive(Clone, Copy, PartialEq, Eq)]
pub struct Header {
    pub typ: u8,
    pub data_offset: u8,
    pub stream_id: u32,
    pub recv_win: u32,
    pub seq: u32,
    pub ack: u32,
}

impl Header {
    // Reads the header at the front of a datagram; what follows it is ignored. It keeps the Rust's name, which
    // the promises cite, so it is no TryFrom.
    #[tactic(auto, unfolding(crate::specs::Header::decoded))]
    pub fn from_bytes(buf: &[u8]) -> Result<Header, Refusal>
        ensures { result ≡ decoded buf.now }
    {
        if buf.len() < UDX_HEADER_SIZE || buf[0] != UDX_MAGIC_BYTE || buf[1] != UDX_VERSION {
            return Err(Refusal::BadHeader);
        }
        Ok(Header {
            typ: buf[2],
            data_offset: buf[3],
            stream_id: read_u32_le(buf, 4),
            recv_win: read_u32_le(buf, 8),
            seq: read_u32_le(buf, 12),
            ack: read_u32_le(buf, 16),
        })
    }

    // The header's bytes. The Rust's name, so no From impl.
    #[tactic(auto, unfolding(crate::specs::Header::header_bytes), using(crate::proofs::LittleEndian::std_bytes))]
    pub fn to_bytes(self) -> [u8; 20]
        ensures { result ≡ header_bytes self }
    {
        let mut bytes = [0; UDX_HEADER_SIZE];
        bytes[0..4].copy_from_slice(&[UDX_MAGIC_BYTE, UDX_VERSION, self.typ, self.data_offset]);
        bytes[4..8].copy_from_slice(&self.stream_id.to_le_bytes());
        bytes[8..12].copy_from_slice(&self.recv_win.to_le_bytes());
        bytes[12..16].copy_from_slice(&self.seq.to_le_bytes());
        bytes[16..20].copy_from_slice(&self.ack.to_le_bytes());
        bytes
    }

    // Writes the header to the front of buf; the rest of buf stays.
    #[tactic(auto, unfolding(crate::specs::Header::encode_answer, crate::specs::Header::encoded_in))]
    pub fn encode(self, buf: &mut [u8]) -> Result<(), Refusal>
        ensures { Encodes self buf.old buf.new result }
    {
        if buf.len() < UDX_HEADER_SIZE {
            return Err(Refusal::ShortBuffer);
        }
        buf[..UDX_HEADER_SIZE].copy_from_slice(&self.to_bytes());
        Ok(())
    }

    // The Rust's has_type, one function for each bit that a stream checks.
    pub fn is_data(self) -> bool
        ensures { result ≡ has_type 1 self.typ }
    {
        self.typ & UDX_HEADER_DATA != 0
    }

    #[tactic(auto, using(crate::proofs::HeaderLaws::end_bit))]
    pub fn is_end(self) -> bool
        ensures { result ≡ has_type 2 self.typ }
    {
        self.typ & UDX_HEADER_END != 0
    }

    #[tactic(auto, using(crate::proofs::HeaderLaws::sack_bit))]
    pub fn is_sack(self) -> bool
        ensures { result ≡ has_type 4 self.typ }
    {
        self.typ & UDX_HEADER_SACK != 0
    }
}
