use crate::{after_bytes, complement};

/// The checksum of these bytes.
fn crc(bytes: &[u8]) -> u32 {
    complement(after_bytes(u32::MAX, bytes))
}

/// The check value of CRC-32 in the catalogue of parametrised CRC algorithms.
#[test]
fn nine_digits_have_the_check_value(rt: HostRuntime) {
    assert!(rt; crc(b"123456789") == 0xcbf4_3926);
}

/// The CRC of the IEND chunk, which has no data, of each PNG file: 4 bytes.
#[test]
fn a_word_has_the_sum_that_files_have(rt: HostRuntime) {
    assert!(rt; crc(b"IEND") == 0xae42_6082);
}
