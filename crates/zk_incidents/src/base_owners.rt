//! The owners of ephemeral nodes before the first transaction of a directory's logs.
ghost use Rattle.std.specs.Prelude.{◌≡◌, [], IfOk, OnOk};
ghost use Rattle.zk_incidents.specs.FirstOwners.{Finds, FindsFirst, FindsOwners, OwnsBy, owned_in, with_stored};
ghost use Rattle.zk_snapshot.specs.Reading.{all_of};

use crate::owners::Owners;
use std::alloc::Global;
use zk_directory_state::{Folder, HistoryFault, read_snapshot_file, snapshots_in};
use zk_path::NoMemory;
use zk_replay::shown_owner;
use zk_snapshot::{SnapshotFault, Stored, read_snapshot};

/// Adds the session that owns a stored node, if it is ephemeral.
fn add_stored(owners: &mut Owners, stored: &Stored) -> Result<(), NoMemory>
    ensures { OnOk result (owners.new ≡ with_stored owners.old stored.now) }
{
    if shown_owner(stored.kept.owner) == 0 {
        return Ok(());
    }
    owners.set(stored.path.text(), stored.kept.owner)
}

/// The sessions that own ephemeral nodes among these.
fn owners_in(alloc: Global, stored: &[Stored]) -> Result<Owners, NoMemory>
    ensures { IfOk result (λ owners. owners ≡ owned_in [] stored.now) }
{
    let mut owners = Owners::new(alloc);
    for one in stored {
        add_stored(&mut owners, one)?;
    }
    Ok(owners)
}

/// The owners in a snapshot of these bytes; `None` if it is broken.
fn owners_from(alloc: Global, bytes: &[u8]) -> Result<Option<Owners>, NoMemory>
    ensures { IfOk result (λ found. OwnsBy (all_of bytes.now) found) }
{
    match read_snapshot(alloc, bytes) {
        Ok(snapshot) => {
            let owners = owners_in(alloc, snapshot.contents.nodes.as_slice())?;
            Ok(Some(owners))
        }
        Err(SnapshotFault::NoMemory) => Err(NoMemory),
        Err(_) => Ok(None),
    }
}

/// The owners in the snapshot of this zxid; `None` if it is broken.
fn owners_at<S: Folder>(
    alloc: Global,
    snapshots: &S,
    zxid: i64,
) -> Result<Option<Owners>, HistoryFault>
    ensures { Finds (S.bytes_in snapshots.now) zxid result }
{
    let bytes = read_snapshot_file(alloc, snapshots, zxid)?;
    Ok(owners_from(alloc, bytes.as_slice())?)
}

/// The owners in the first of these snapshots that is whole.
fn owners_of<S: Folder>(alloc: Global, snapshots: &S, held: &[i64]) -> Result<Owners, HistoryFault>
    ensures { FindsFirst (S.bytes_in snapshots.now) held.now result }
{
    let mut rest = held;
    while let [zxid, more @ ..] = rest {
        if let Some(owners) = owners_at(alloc, snapshots, *zxid)? {
            return Ok(owners);
        }
        rest = more;
    }
    Ok(Owners::new(alloc))
}

/// The sessions that own ephemeral nodes in the first snapshot of a folder that is whole; none if
/// there is no such snapshot.
///
/// Fails with [`HistoryFault::Read`] if the folder cannot be read, and with
/// [`HistoryFault::Unreadable`] if one of its snapshots cannot.
pub fn first_owners<S: Folder>(alloc: Global, snapshots: &S) -> Result<Owners, HistoryFault>
    ensures { FindsOwners (S.names_in snapshots.now) (S.bytes_in snapshots.now) result }
{
    let held = snapshots_in(alloc, snapshots)?;
    owners_of(alloc, snapshots, held.as_slice())
}
