use std::alloc::{AllocError, Global};

/// The bytes of a secret.
pub const SECRET_BYTES: usize = 16;

/// What distinguishes a directory's ensemble from others.
#[derive(Clone, Copy, Debug, PartialEq, Eq)]
pub struct Identity {
    /// The number of its servers.
    pub servers: u8,
    /// The secret of its sessions' passwords.
    pub secret: [u8; SECRET_BYTES],
}

impl Identity {
    ghost use Rattle.std.specs.Prelude.{◌≡◌, ◌≢◌, length, IfNone, IfOk, IfSome};
    ghost use Rattle.zk_data_files.specs.Identities.{bytes_of};

    /// The bytes of the file `ensemble`.
    pub fn to_bytes(&self, alloc: Global) -> Result<Vec<u8>, AllocError>
        ensures { IfOk result (λ bytes. bytes.items ≡ bytes_of self.now) }
    {
        let mut bytes = Vec::new(alloc);
        bytes.push(self.servers)?;
        bytes.extend_from_slice(&self.secret)?;
        Ok(bytes)
    }

    /// The identity that the bytes of a file `ensemble` write; `None` if they write none.
    pub fn from_bytes(bytes: &[u8]) -> Option<Identity>
        ensures found { IfSome result (λ it. bytes.now ≡ bytes_of it) }
        ensures none { IfNone result (length bytes.now ≢ 17) }
    {
        let [servers, rest @ ..] = bytes else {
            return None;
        };
        let secret = <[u8; SECRET_BYTES]>::try_from(rest).ok()?;
        Some(Identity {
            servers: *servers,
            secret,
        })
    }
}
