ghost use Rattle.std.specs.Prelude.{◌≡◌};
ghost use Rattle.zk_connections.specs.Words.{word_of, word_in};

/// A four-letter word, which a connection sends in place of its first frame.
///
/// ZooKeeper Administrator's Guide, "The Four Letter Words".
#[derive(Clone, Copy, Debug, PartialEq, Eq)]
pub enum Word {
    /// Whether the server runs.
    Ruok,
    /// The server's statistics.
    Srvr,
    /// The server's statistics, of which a ZooKeeper server also lists its connections.
    Stat,
    /// The server's statistics, as names and values.
    Mntr,
    /// The server's version.
    Envi,
    /// Whether the server is read-only.
    Isro,
    /// The server's connections.
    Cons,
    /// The sessions, and the ephemeral nodes of each.
    Dump,
}

fn word_of(bytes: &[u8]) -> Option<Word>
    ensures { result ≡ word_of bytes.now }
{
    match bytes {
        b"ruok" => Some(Word::Ruok),
        b"srvr" => Some(Word::Srvr),
        b"stat" => Some(Word::Stat),
        b"mntr" => Some(Word::Mntr),
        b"envi" => Some(Word::Envi),
        b"isro" => Some(Word::Isro),
        b"cons" => Some(Word::Cons),
        b"dump" => Some(Word::Dump),
        _ => None,
    }
}

/// The word that is the first four of these bytes.
pub(crate) fn word_in(input: &[u8]) -> Option<Word>
    ensures { result ≡ word_in input.now }
{
    if input.len() < 4 {
        return None;
    }
    word_of(&input[..4])
}
