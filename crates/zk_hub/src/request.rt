ghost use Rattle.std.specs.Prelude.{◌≡◌};
ghost use Rattle.zk_hub.specs.Hubs.{is_of, awaits, is_read};

/// How far a request has come, where `R` is the type of results.
#[derive(Debug, Drop)]
pub enum Stage<R> {
    /// A write or a sync, which waits for the result with this tag.
    Waits { tag: u64 },
    /// A read. It is made when each earlier request of its connection has its reply.
    Reads,
    /// The result has come.
    Done(R),
}

/// A request without a reply, where `E` is the type of what its reply needs beside the result.
#[derive(Debug, Drop)]
pub struct Outstanding<E, R> {
    pub connection: u64,
    pub stage: Stage<R>,
    pub expected: E,
}

/// The reply to a request.
#[derive(Debug, Drop)]
pub struct Reply<E, R> {
    pub expected: E,
    pub result: R,
}

impl<R> Stage<R> {
    pub(crate) fn awaits(&self, tag: u64) -> bool
        ensures { result ≡ awaits tag self.now }
    {
        match self {
            Stage::Waits { tag: other } => *other == tag,
            Stage::Reads | Stage::Done(_) => false,
        }
    }

    pub(crate) fn is_read(&self) -> bool
        ensures { result ≡ is_read self.now }
    {
        match self {
            Stage::Reads => true,
            Stage::Waits { .. } | Stage::Done(_) => false,
        }
    }
}
