//! The last transaction that changed each node.
ghost use Rattle.std.specs.Prelude.{◌≡◌, IfOk, OnOk, map};
ghost use Rattle.zk_tree_changes.specs.Changes.{changed, followed, is_next, moved, owned_in, parents, stamp_at, stamp_of, stamped, start_track, with_node, with_nodes, with_record};
ghost use Rattle.zk_incidents.specs.Owners.{touched};

use crate::moved::{moved, parents};
use crate::stamps::{Stamp, Stamps};
use std::alloc::Global;
use std::marker::Model;
use zk_directory::continues;
use zk_incidents::Owners;
use zk_newer_records::NewerRecord;
use zk_path::NoMemory;
use zk_tree::{Entry, Tree};

/// The last transaction that changed the line of each node, after one transaction and up to another.
#[derive(Drop)]
pub struct LastChanges {
    alloc: Global,
    /// The zxid of the last record so far.
    position: i64,
    /// The zxid of the last record of all.
    upto: i64,
    owners: Owners,
    stamps: Stamps,
}

impl Model for LastChanges {
    ghost use Rattle.zk_tree_changes.specs.Changes.{Track};

    ghost Value = { Track };

    ghost view = { λ changes. record { position = changes.position; upto = changes.upto; owned = changes.owners; stamps = changes.stamps } };
}

impl LastChanges {
    /// No record yet. The tree is that after the transaction `position`.
    pub fn new(
        alloc: Global,
        tree: &Tree,
        position: i64,
        upto: i64,
    ) -> Result<LastChanges, NoMemory>
        ensures { IfOk result (λ changes. changes ≡ start_track tree.now position upto) }
    {
        Ok(LastChanges {
            alloc,
            position,
            upto,
            owners: owners_in(alloc, tree)?,
            stamps: Stamps::new(alloc),
        })
    }

    /// Follows a record, if it continues those so far and is asked for. Nothing is specified after an
    /// allocation failure.
    pub fn follow(&mut self, newer: &NewerRecord) -> Result<(), NoMemory>
        ensures { OnOk result (self.new ≡ followed self.old newer.now) }
    {
        if self.is_next(newer.txn.zxid) {
            self.take(newer)?;
        }
        Ok(())
    }

    fn is_next(&self, zxid: i64) -> bool
        ensures { result ≡ is_next self.now zxid }
    {
        continues(self.position, zxid) && zxid <= self.upto
    }

    fn take(&mut self, newer: &NewerRecord) -> Result<(), NoMemory>
        ensures { OnOk result (self.new ≡ with_record self.old newer.now) }
    {
        set_changed(self.alloc, &mut self.stamps, &self.owners, newer)?;
        self.owners.follow(newer)?;
        self.position = newer.txn.zxid;
        Ok(())
    }

    /// The last transaction that changed the line of the node at a path; `None` if it is not known.
    pub fn stamp_at(&self, path: &str) -> Option<Stamp>
        ensures { result ≡ stamp_at self.now path.now }
    {
        if self.upto <= self.position {
            return self.stamps.get(path);
        }
        None
    }
}

/// The zxid and the time of a record.
fn stamp_of(newer: &NewerRecord) -> Stamp
    ensures { result ≡ stamp_of newer.now }
{
    Stamp {
        zxid: newer.txn.zxid,
        time: newer.txn.time,
    }
}

/// Sets the last transaction of the paths whose lines a record changes.
fn set_changed(
    alloc: Global,
    stamps: &mut Stamps,
    owners: &Owners,
    newer: &NewerRecord,
) -> Result<(), NoMemory>
    ensures { OnOk result (stamps.new ≡ stamped stamps.old (stamp_of newer.now) (changed owners.now newer.now)) }
{
    set_touched(stamps, owners, newer)?;
    set_parents(alloc, stamps, owners, newer)
}

/// Sets the last transaction of the paths that a record creates, changes or deletes.
fn set_touched(stamps: &mut Stamps, owners: &Owners, newer: &NewerRecord) -> Result<(), NoMemory>
    ensures { OnOk result (stamps.new ≡ stamped stamps.old (stamp_of newer.now) (touched owners.now newer.now)) }
{
    let touched = owners.touched(newer)?;
    stamps.set_all(stamp_of(newer), touched.as_slice())
}

/// Sets the last transaction of the paths whose children a record creates or deletes.
fn set_parents(
    alloc: Global,
    stamps: &mut Stamps,
    owners: &Owners,
    newer: &NewerRecord,
) -> Result<(), NoMemory>
    ensures { OnOk result (stamps.new ≡ stamped stamps.old (stamp_of newer.now) (parents (moved owners.now newer.now))) }
{
    let moved = moved(alloc, owners, newer)?;
    let parents = parents(alloc, moved.as_slice())?;
    stamps.set_all(stamp_of(newer), parents.as_slice())
}

/// The owners of a tree's nodes.
#[tactic(auto, using(crate::proofs::Stamping::owners_lent))]
fn owners_in(alloc: Global, tree: &Tree) -> Result<Owners, NoMemory>
    ensures { IfOk result (λ owners. owners ≡ owned_in tree.now) }
{
    let mut owners = Owners::new(alloc);
    let entries = tree.entries()?;
    add_nodes(&mut owners, entries.as_slice())?;
    Ok(owners)
}

/// Adds the owners of these nodes.
fn add_nodes(owners: &mut Owners, entries: &[Entry<'_>]) -> Result<(), NoMemory>
    ensures { OnOk result (owners.new ≡ with_nodes owners.old (map (λ entry. (entry.path.now, entry.node.now.owner)) entries.now)) }
{
    for entry in entries {
        add_node(owners, entry)?;
    }
    Ok(())
}

/// Adds the owner of a node, if it has one.
fn add_node(owners: &mut Owners, entry: &Entry<'_>) -> Result<(), NoMemory>
    ensures { OnOk result (owners.new ≡ with_node owners.old (entry.now.path.now, entry.now.node.now.owner)) }
{
    let owner = entry.node.owner;
    if owner == 0 {
        return Ok(());
    }
    owners.set(entry.path.text(), owner)
}
