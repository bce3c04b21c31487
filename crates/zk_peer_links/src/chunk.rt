use std::marker::Model;

/// Bytes of a link.
#[derive(Debug, Drop)]
pub struct Chunk {
    bytes: Vec<u8>,
}

/// Contracts see the list.
impl Model for Chunk {
    ghost use Rattle.std.specs.Prelude.{ℕ, List};

    ghost Value = { List ℕ };

    ghost view = { λ it. it.bytes.items };
}

impl Chunk {
    ghost use Rattle.std.specs.Prelude.{◌≡◌};

    pub fn new(bytes: Vec<u8>) -> Chunk
        ensures { result ≡ bytes.items }
    {
        Chunk { bytes }
    }

    pub fn as_slice(&self) -> &[u8]
        ensures { result.now ≡ self.now }
    {
        self.bytes.as_slice()
    }

    pub fn into_bytes(self) -> Vec<u8>
        ensures { result.items ≡ self }
    {
        let Chunk { bytes } = self;
        bytes
    }
}
