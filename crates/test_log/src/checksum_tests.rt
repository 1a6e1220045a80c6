//! Sums that are published, and those of each length.

use ipc_log::crc32c;
use std::alloc::Global;
use std::test::Fail;

/// Texts and their CRC-32C: the check value of the polynomial, and those of RFC 3720, appendix B.4.
static SUMS: [(&[u8], u32); 5] = [
    (b"", 0),
    (b"123456789", 0xe306_9283),
    (&[0; 32], 0x8a91_36aa),
    (&[0xff; 32], 0x62a8_ab43),
    (
        b"\x01\xc0\0\0\0\0\0\0\0\0\0\0\0\0\0\0\x14\0\0\0\0\0\x04\0\0\0\0\x14\0\0\0\x18\x28\0\0\0\0\0\0\0\x02\0\0\0\0\0\0\0",
        0xd996_3a56,
    ),
];

#[test]
fn sums_are_those_that_are_published(rt: HostRuntime) -> Result<(), Fail> {
    for (at, (text, sum)) in SUMS.iter().enumerate() {
        if crc32c(text) != *sum {
            return Err(Fail::new(format_args!("text {at}")));
        }
    }
    Ok(())
}

/// The bytes 0 to 31, upwards or downwards.
fn counted(alloc: Global, upwards: bool) -> Result<Vec<u8>, Fail> {
    let mut bytes = Vec::new(alloc);
    for byte in 0..32u8 {
        bytes.push(if upwards { byte } else { 31 - byte })?;
    }
    Ok(bytes)
}

#[test]
fn bytes_that_count_have_the_published_sums(rt: HostRuntime) -> Result<(), Fail> {
    let upwards = counted(rt.alloc(), true)?;
    let downwards = counted(rt.alloc(), false)?;
    assert!(rt; crc32c(&upwards) == 0x46dd_794e);
    assert!(rt; crc32c(&downwards) == 0x113f_db5c);
    Ok(())
}

/// The sum of a text, divided bit by bit.
fn by_bits(text: &[u8]) -> u32 {
    let mut crc = u32::MAX;
    for byte in text {
        crc ^= u32::from(*byte);
        for _ in 0..8 {
            crc = if crc % 2 == 1 {
                crc / 2 ^ 0x82f6_3b78
            } else {
                crc / 2
            };
        }
    }
    crc ^ u32::MAX
}

#[test]
fn texts_of_every_length_have_the_sum_of_their_bits(rt: HostRuntime) -> Result<(), Fail> {
    let mut text = Vec::new(rt.alloc());
    for byte in 0..40u8 {
        text.push(byte.wrapping_mul(37).wrapping_add(131))?;
    }
    for end in 0..=text.len() {
        if crc32c(&text[..end]) != by_bits(&text[..end]) {
            return Err(Fail::new(format_args!("length {end}")));
        }
    }
    Ok(())
}
