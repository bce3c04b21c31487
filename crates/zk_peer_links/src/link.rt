use crate::notice::Notice;
use std::alloc::Global;
use std::marker::Model;
use zab_frames::Decoder;

/// A connection to a peer.
#[derive(Debug, Drop)]
pub struct Link {
    pub(crate) number: u64,
    /// Has the bytes that have come and were not taken.
    pub(crate) decoder: Decoder,
    /// The last notice that was written.
    pub(crate) told: Option<Notice>,
}

impl Model for Link {
    ghost use Rattle.std.specs.Prelude.{◌≡◌, None};
    ghost use Rattle.zk_peer_links.specs.Links.{LinkView};

    ghost Value = { LinkView };

    ghost view = { λ it. record { number = it.number; rest = it.decoder.rest; told = it.told } };

    ghost invariant = { λ it. it.decoder.fault ≡ None };
}

impl Link {
    ghost use Rattle.std.specs.Prelude.{◌≡◌};
    ghost use Rattle.zk_peer_links.specs.Links.{new_link};

    /// A connection that has just been opened.
    pub(crate) fn new(alloc: Global, number: u64) -> Link
        ensures { result ≡ new_link number }
    {
        Link {
            number,
            decoder: Decoder::new(alloc),
            told: None,
        }
    }
}
