use zab_host::{MemoryStorage, Storage};
use zk_client_service::ClientService;
use zk_peers::PeerState;

/// Where the stores of servers come from.
pub trait Stores<S: Storage> {
    /// Whether the store of a server that starts again is opened again.
    fn are_reopened(&self) -> bool;

    /// Opens a server's store, which nothing else has open; `None` if that fails.
    fn open(&self, server: usize) -> Option<S>;
}

/// Stores in memory, which live as long as the process, and are not opened again.
#[derive(Clone, Copy, Debug)]
pub struct InMemory;

impl Stores<MemoryStorage> for InMemory {
    fn are_reopened(&self) -> bool {
        false
    }

    fn open(&self, _server: usize) -> Option<MemoryStorage> {
        None
    }
}

/// Opens again the store of a server that does not run.
pub(crate) fn reopen<S: Storage, O: Stores<S>>(
    service: &mut ClientService<S>,
    stores: &O,
    server: usize,
) {
    if stores.are_reopened() && service.state(server) == PeerState::Down {
        // It is closed first: no two have the files.
        service.replace_storage(server, None);
        if let Some(storage) = stores.open(server) {
            service.replace_storage(server, Some(storage));
        }
    }
}
