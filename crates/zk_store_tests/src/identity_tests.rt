//! The file `ensemble`: a byte with the number of servers, and the secret.

use zk_data_files::Identity;

const BYTES: &[u8] = b"\x03abcdefghijklmnop";

#[test]
fn an_identity_is_written(rt: HostRuntime) {
    let identity = Identity {
        servers: 3,
        secret: *b"abcdefghijklmnop",
    };
    let Ok(bytes) = identity.to_bytes(rt.alloc()) else {
        panic!(rt; "no bytes");
    };
    assert!(rt; bytes.as_slice() == BYTES);
}

#[test]
fn an_identity_is_read(rt: HostRuntime) {
    let Some(identity) = Identity::from_bytes(BYTES) else {
        panic!(rt; "no identity");
    };
    assert!(rt; identity.servers == 3);
    assert!(rt; identity.secret == *b"abcdefghijklmnop");
}

#[test]
fn other_bytes_are_none(rt: HostRuntime) {
    assert!(rt; Identity::from_bytes(b"").is_none());
    assert!(rt; Identity::from_bytes(b"\x03abcdefghijklmno").is_none());
    assert!(rt; Identity::from_bytes(b"\x03abcdefghijklmnopq").is_none());
}
