//! CRC-32C, the sum of a trail's bytes.

ghost use Rattle.std.specs.Prelude.{◌≡◌, ◌+◌, ◌*◌, ◌<◌};
ghost use Rattle.ipc_log.specs.Checksum.{shifted_by, by_byte, by_bytes, crc32c};

use crate::remainders::REMAINDERS;

/// The remainder of a byte with so many bytes of 0 behind it: their steps of the division at once.
fn remainder_of(byte: u8, zeros: usize) -> u32
    requires { zeros < 8 }
    ensures { result ≡ shifted_by (8 * (zeros + 1)) byte }
{
    REMAINDERS[zeros][byte as usize]
}

/// Divides a byte more.
#[tactic(auto, unfolding(crate::specs::Checksum::by_byte))]
fn by_byte(crc: u32, byte: u8) -> u32
    ensures { result ≡ by_byte crc byte }
{
    let mixed = crc ^ u32::from(byte);
    mixed / 256 ^ remainder_of((mixed % 256) as u8, 0)
}

/// Divides eight bytes more. Each is looked up by itself, the first four with the remainder, so no look-up waits for another.
fn by_eight(crc: u32, bytes: &[u8; 8]) -> u32
    ensures { result ≡ by_bytes crc bytes.now }
{
    let [c0, c1, c2, c3] = crc.to_le_bytes();
    let [b0, b1, b2, b3, b4, b5, b6, b7] = *bytes;
    remainder_of(b7, 0)
        ^ remainder_of(b6, 1)
        ^ remainder_of(b5, 2)
        ^ remainder_of(b4, 3)
        ^ remainder_of(c3 ^ b3, 4)
        ^ remainder_of(c2 ^ b2, 5)
        ^ remainder_of(c1 ^ b1, 6)
        ^ remainder_of(c0 ^ b0, 7)
}

/// The CRC-32C of these bytes (RFC 3720, appendix B.4).
pub fn crc32c(bytes: &[u8]) -> u32
    ensures { result ≡ crc32c bytes.now }
{
    let mut crc = u32::MAX;
    let mut rest = bytes;
    while let Some((eight, behind)) = rest.split_first_chunk() {
        crc = by_eight(crc, eight);
        rest = behind;
    }
    for byte in rest {
        crc = by_byte(crc, *byte);
    }
    crc ^ u32::MAX
}
