use crate::election::Position;
use crate::mode::Mode;
use zab_host::Storage;
use zk_host::ReplicaHost;

/// Whether a server runs.
pub enum Site<S: Storage> {
    Runs(ReplicaHost<S>),
    /// It has stopped, and has its store alone; `None` if the store was lost at a start that failed.
    Stopped(Option<S>),
}

impl<S: Storage + Drop> Drop for Site<S> {
    fn drop(self) {
        match self {
            Site::Runs(_) => (),
            Site::Stopped(_) => (),
        }
    }
}

impl<S: Storage> Site<S> {
    ghost use Rattle.std.specs.Prelude.{◌≡◌, IfOk, IfErr};
    ghost use Rattle.zk_server.specs.declared.site.Site.TheVariants as sites;
    ghost use Rattle.zk_server.specs.Modes.{mode_at};
    ghost use Rattle.zk_server.specs.Sites.{is_running, storage_in};

    pub fn is_running(&self) -> bool
        ensures { result ≡ is_running self.now }
    {
        matches!(self, Site::Runs(_))
    }

    /// Its mode, if its election has this position.
    pub fn mode(&self, position: Position) -> Mode
        ensures { result ≡ mode_at position self.now }
    {
        match self {
            Site::Runs(host) => Mode::of(position, host.role()),
            Site::Stopped(_) => Mode::Looking,
        }
    }

    /// Its host, or the store of a server that has stopped.
    pub fn into_host(self) -> Result<ReplicaHost<S>, Option<S>>
        ensures runs { IfOk result (λ host. self ≡ sites.Runs host) }
        ensures stopped { IfErr result (λ storage. self ≡ sites.Stopped storage) }
    {
        match self {
            Site::Runs(host) => Ok(host),
            Site::Stopped(storage) => Err(storage),
        }
    }

    /// Its store; `None` if a start on it failed.
    pub fn into_storage(self) -> Option<S>
        ensures { result ≡ storage_in self }
    {
        match self {
            Site::Runs(host) => Some(host.into_storage()),
            Site::Stopped(storage) => storage,
        }
    }
}
