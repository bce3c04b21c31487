//! Passwords of sessions. The SHA-1 is that of Python's `hashlib`.

use zk_connections::{PASSWORD_BYTES, is_password, password_of};

static SECRET: [u8; PASSWORD_BYTES] = [0, 1, 2, 3, 4, 5, 6, 7, 8, 9, 10, 11, 12, 13, 14, 15];

const SESSION: i64 = 0x100_001b_f01f_0000;

static PASSWORD: [u8; PASSWORD_BYTES] = [
    0xd4, 0x5f, 0x3d, 0xdc, 0x87, 0x58, 0xce, 0xac, 0xb5, 0x6e, 0x06, 0xa2, 0xbd, 0xc2, 0xe8, 0x34,
];

#[test]
fn passwords_are_digests(rt: HostRuntime) {
    assert!(rt; password_of(&SECRET, SESSION) == PASSWORD);
    assert!(rt; is_password(&SECRET, SESSION, &PASSWORD));
    assert!(rt; !is_password(&SECRET, SESSION + 1, &PASSWORD));
    assert!(rt; !is_password(&SECRET, SESSION, &PASSWORD[..15]));
}
