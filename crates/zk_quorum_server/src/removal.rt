//! The watches of connections that are over.

ghost use Rattle.std.specs.Prelude.{◌≡◌};
ghost use Rattle.zk_quorum_server.specs.Removals.{host_without_watches, site_without_watches};

use zab_host::Storage;
use zk_host::ReplicaHost;
use zk_server::Site;

/// Drops the watches of connections, if the server runs.
pub(crate) fn drop_watches_at<S: Storage>(site: &mut Site<S>, numbers: &[u64])
    ensures { site.new ≡ site_without_watches numbers.now site.old }
{
    if let Site::Runs(host) = site {
        drop_watches(host, numbers);
    }
}

fn drop_watches<S: Storage>(host: &mut ReplicaHost<S>, numbers: &[u64])
    ensures { host.new ≡ host_without_watches numbers.now host.old }
{
    for number in numbers {
        host.close_connection(*number);
    }
}
