// Numbers of four bytes, the lowest byte first (document 01: "little-endian and unsigned").
ghost use Rattle.std.specs.Prelude.{◌≡◌, ◌+◌, ◌*◌, ◌<◌, length, get_or};

// Four bytes as a number.
pub fn word(bytes: &[u8], at: usize) -> u32
    requires { at + 3 < length bytes.now }
    ensures { let byte = get_or bytes.now in
        result ≡ byte at 0 + 256 * byte (at + 1) 0 + 65536 * byte (at + 2) 0 + 16777216 * byte (at + 3) 0 }
{
    u32::from_le_bytes([bytes[at], bytes[at + 1], bytes[at + 2], bytes[at + 3]])
}
