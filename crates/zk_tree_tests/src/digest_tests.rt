//! Tests of `digest_id`, and of SHA-1 and base64, which it uses.

use base64::engine::general_purpose::STANDARD;
use sha1::Sha1;
use std::alloc::Global;
use zk_acl::digest_id;

/// Whether a text has this digest.
fn is_proved(alloc: Global, text: &str, digest: &str) -> bool {
    match digest_id(alloc, text) {
        Ok(made) => made.scheme.as_str() == "digest" && made.id.as_str() == digest,
        Err(_) => false,
    }
}

/// The output of a real server's tool, `DigestAuthenticationProvider` of 3.8.0.
#[test]
fn digests_are_a_real_servers(rt: HostRuntime) {
    for (text, digest) in [
        ("super:test", "super:D/InIHSb7yEEbrWz8b9l71RjZJU="),
        ("user:password", "user:tpUq/4Pn5A64fVZyQ0gOJ8ZWqkY="),
        ("jane:a:b", "jane:xZf7eHEeI6/SOa3m8VUQ2KPQZqQ="),
    ] {
        assert!(rt; is_proved(rt.alloc(), text, digest));
    }
}

/// Whether `text` is the base64 encoding of `bytes`.
fn is_base64(alloc: Global, bytes: &[u8], text: &str) -> bool {
    matches!(STANDARD.encode(alloc, bytes), Ok(spelled) if spelled.as_str() == text)
}

/// Whether the SHA-1 of a text is `digest`, with this base64 encoding.
fn has_sha1(alloc: Global, text: &str, digest: &[u8; 20], spelled: &str) -> bool {
    let made = Sha1::digest(text.as_bytes());
    made == *digest && is_base64(alloc, &made, spelled)
}

const OF_ABC: [u8; 20] = [
    0xa9, 0x99, 0x3e, 0x36, 0x47, 0x06, 0x81, 0x6a, 0xba, 0x3e, 0x25, 0x71, 0x78, 0x50, 0xc2, 0x6c,
    0x9c, 0xd0, 0xd8, 0x9d,
];

const OF_NOTHING: [u8; 20] = [
    0xda, 0x39, 0xa3, 0xee, 0x5e, 0x6b, 0x4b, 0x0d, 0x32, 0x55, 0xbf, 0xef, 0x95, 0x60, 0x18, 0x90,
    0xaf, 0xd8, 0x07, 0x09,
];

/// The numbers from 0 to 63 in order, six bits each: RFC 4648's table of base64 is their text.
const SIXTY_FOUR: [u8; 48] = [
    0x00, 0x10, 0x83, 0x10, 0x51, 0x87, 0x20, 0x92, 0x8b, 0x30, 0xd3, 0x8f, 0x41, 0x14, 0x93, 0x51,
    0x55, 0x97, 0x61, 0x96, 0x9b, 0x71, 0xd7, 0x9f, 0x82, 0x18, 0xa3, 0x92, 0x59, 0xa7, 0xa2, 0x9a,
    0xab, 0xb2, 0xdb, 0xaf, 0xc3, 0x1c, 0xb3, 0xd3, 0x5d, 0xb7, 0xe3, 0x9e, 0xbb, 0xf3, 0xdf, 0xbf,
];

#[test]
fn sha1_and_base64_are_the_standards(rt: HostRuntime) {
    let alloc = rt.alloc();
    assert!(rt; has_sha1(alloc, "abc", &OF_ABC, "qZk+NkcGgWq6PiVxeFDCbJzQ2J0="));
    assert!(rt; has_sha1(alloc, "", &OF_NOTHING, "2jmj7l5rSw0yVb/vlWAYkK/YBwk="));
    let alphabet = "ABCDEFGHIJKLMNOPQRSTUVWXYZabcdefghijklmnopqrstuvwxyz0123456789+/";
    assert!(rt; is_base64(alloc, &SIXTY_FOUR, alphabet));
}
