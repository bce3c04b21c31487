//! RFC 4648, section 10, "Test Vectors", for base16; in lower case.

use std::alloc::AllocError;
use zk_listing::{decode_lower, decode_lower_to};

#[test]
fn pairs_of_digits_are_read(rt: HostRuntime) -> Result<(), AllocError> {
    let cases: [(&[u8], &[u8]); 4] = [
        (b"", b""),
        (b"66", b"f"),
        (b"666f6f626172", b"foobar"),
        (b"00ff09a0", &[0, 255, 9, 160]),
    ];
    for (digits, bytes) in cases {
        let decoded = decode_lower(rt.alloc(), digits)?;
        assert!(rt; decoded.is_some_and(|it| it.as_slice() == bytes));
    }
    Ok(())
}

#[test]
fn pairs_of_digits_are_read_into_a_buffer(rt: HostRuntime) {
    let mut bytes = [0u8; 6];
    assert!(rt; decode_lower_to(b"666f6f626172", &mut bytes));
    assert!(rt; bytes.as_slice() == b"foobar".as_slice());
    assert!(rt; !decode_lower_to(b"666f6f62617G", &mut bytes));
}

#[test]
fn other_texts_are_not(rt: HostRuntime) -> Result<(), AllocError> {
    for digits in [
        &b"6"[..],
        b"6F",
        b"6g",
        b"/0",
        b":0",
        b"`0",
        b"66 6",
        b"\xff\xff",
    ] {
        assert!(rt; decode_lower(rt.alloc(), digits)?.is_none());
    }
    Ok(())
}
