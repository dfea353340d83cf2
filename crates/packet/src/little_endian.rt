// Reads a number of four bytes, least significant first; header.rt writes them by std's to_le_bytes.
ghost use Rattle.std.specs.Prelude.{◌≡◌, ◌+◌, ◌≤◌, length};
ghost use Rattle.packet.specs.LittleEndian.{word};

// The number in the four bytes at a place.
pub fn read_u32_le(buf: &[u8], at: usize) -> u32
    requires { at + 4 ≤ length buf.now }
    ensures { result ≡ word buf.now at }
{
    u32::from_le_bytes([buf[at], buf[at + 1], buf[at + 2], buf[at + 3]])
}
