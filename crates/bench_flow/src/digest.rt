//! The stream that is sent, and a digest of what comes.

/// The byte at a place of the stream.
pub fn byte_at(place: u64) -> u8 {
    (place % 251) as u8
}

/// A digest (FNV-1a) with some more bytes.
pub fn digest_with(digest: u64, bytes: &[u8]) -> u64 {
    let mut digest = digest;
    for byte in bytes {
        digest = (digest ^ u64::from(*byte)).wrapping_mul(0x0000_0100_0000_01b3);
    }
    digest
}

/// The digest of no bytes.
pub const START: u64 = 0xcbf2_9ce4_8422_2325;

/// The digest of the first bytes of the stream.
pub fn digest_of(bytes: u64) -> u64 {
    let mut digest = START;
    for place in 0..bytes {
        digest = digest_with(digest, &[byte_at(place)]);
    }
    digest
}
