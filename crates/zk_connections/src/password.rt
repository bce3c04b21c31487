//! SHA-1 is defined in FIPS 180-4.

ghost use Rattle.std.specs.Prelude.{◌≡◌, ◌++◌, take};
ghost use Rattle.std.specs.Int.{w64, to_be_bytes, cast_unsigned};
ghost use Rattle.std.specs.Str.{bytes_eq};
ghost use Rattle.sha1.specs.Sha1.{sha1};
ghost use Rattle.zk_connections.specs.Passwords.{password_of};

use sha1::Sha1;

/// The length of a password, and of the secret.
pub const PASSWORD_BYTES: usize = 16;

/// The length of a SHA-1.
const DIGEST_BYTES: usize = 20;

/// The SHA-1 of the secret and the session.
fn digest(secret: &[u8; PASSWORD_BYTES], session: i64) -> [u8; DIGEST_BYTES]
    ensures { result ≡ sha1 (secret.now ++ to_be_bytes w64 (cast_unsigned w64 session)) }
{
    let bytes = session.to_be_bytes();
    let mut hasher = Sha1::new();
    hasher.update(secret);
    hasher.update(&bytes);
    hasher.finalize()
}

fn first_bytes(digest: &[u8; DIGEST_BYTES]) -> [u8; PASSWORD_BYTES]
    ensures { result ≡ take 16 digest.now }
{
    let mut first = [0; PASSWORD_BYTES];
    first.copy_from_slice(&digest[..PASSWORD_BYTES]);
    first
}

/// The password of a session: the same on each server that has the secret.
#[tactic(auto, unfolding(crate::specs::Passwords::password_of))]
pub fn password_of(secret: &[u8; PASSWORD_BYTES], session: i64) -> [u8; PASSWORD_BYTES]
    ensures { result ≡ password_of secret.now session }
{
    let digest = digest(secret, session);
    first_bytes(&digest)
}

/// Whether this is the password of the session.
pub fn is_password(secret: &[u8; PASSWORD_BYTES], session: i64, password: &[u8]) -> bool
    ensures { result ≡ bytes_eq password.now (password_of secret.now session) }
{
    password == password_of(secret, session).as_slice()
}
