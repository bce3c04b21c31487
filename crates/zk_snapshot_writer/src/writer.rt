ghost use Rattle.std.specs.Prelude.{◌≡◌, ◌<◌, ◌≤◌, ◌++◌, ◌==◌, length, take, drop, IfOk, IfErr, OnOk, OnErr};
ghost use Rattle.zk_snapshot.specs.Snapshots.{IsContents, IsSnapshotOf};
ghost use Rattle.zk_snapshot_writer.specs.Writing.{head, IsHandedOver, Rejects};

use crate::checksum::Checksum;
use crate::encoder::Encoder;
use crate::fault::WriterFault;
use crate::fields::{put_accesses, put_header, put_leases};
use crate::lengths::are_contents;
use std::alloc::Global;
use std::marker::Model;
use zk_path::NoMemory;
use zk_snapshot::{Contents, Snapshot};

/// The bytes of a snapshot that are still to be written.
///
/// Besides the snapshot it holds the encoding of one node, or of what stands before the nodes. The
/// contents of a snapshot's nodes are shared with the tree that they come from.
#[derive(Debug, Drop)]
pub struct SnapshotWriter {
    encoder: Encoder,
    /// The bytes that were encoded last.
    item: Vec<u8>,
    /// How many of them were handed over.
    start: usize,
}

/// A writer is modelled as the bytes that it has not handed over.
impl Model for SnapshotWriter {
    ghost use Rattle.std.specs.Prelude.{List, ℕ, ◌≤◌, length};
    ghost use Rattle.zk_snapshot_writer.specs.Writing.{left, IsEncoder};

    ghost Value = { List ℕ };

    ghost view = { λ writer. left writer.encoder writer.item.items writer.start };

    ghost invariant = { λ writer. IsEncoder writer.encoder × (writer.start ≤ length writer.item.items) };
}

/// What stands before the nodes.
fn head_of(alloc: Global, contents: &Contents) -> Result<Vec<u8>, NoMemory>
    requires { IsContents contents.now }
    ensures { IfOk result (λ bytes. bytes.items ≡ head contents.now) }
{
    let mut out = Vec::new(alloc);
    put_header(&mut out, contents.dbid)?;
    put_leases(&mut out, contents.leases.as_slice())?;
    put_accesses(&mut out, contents.accesses.as_slice())?;
    Ok(out)
}

impl SnapshotWriter {
    /// A writer of all bytes of a snapshot. Encodes its sessions and access control lists at once,
    /// and looks at each node.
    ///
    /// Fails with [`WriterFault::Long`] if a length or a number has no field.
    pub fn new(alloc: Global, snapshot: Snapshot) -> Result<SnapshotWriter, WriterFault>
        ensures whole { IfOk result (λ writer. IsSnapshotOf writer snapshot) }
        ensures fault { IfErr result (Rejects snapshot) }
    {
        let Snapshot { contents, claim } = snapshot;
        if !are_contents(&contents) {
            return Err(WriterFault::Long);
        }
        let Ok(item) = head_of(alloc, &contents) else {
            return Err(WriterFault::NoMemory);
        };
        let sums = Checksum::new().after(item.as_slice());
        let nodes = contents.nodes;
        Ok(SnapshotWriter {
            encoder: Encoder {
                nodes,
                claim,
                at: 0,
                sums,
                is_over: false,
            },
            item,
            start: 0,
        })
    }

    /// Whether all bytes were handed over.
    pub fn is_done(&self) -> bool
        ensures { result ≡ (length self.now == 0) }
    {
        self.encoder.is_over && self.start == self.item.len()
    }

    /// Appends the next `most` bytes to a buffer, or all that are left. If an allocation fails,
    /// bytes that were appended are not written again.
    pub fn write_some(&mut self, out: &mut Vec<u8>, most: usize) -> Result<(), NoMemory>
        ensures appended { OnOk result (out.new.items ≡ out.old.items ++ take most self.old) }
        ensures rest { OnOk result (self.new ≡ drop most self.old) }
        ensures err { OnErr result (IsHandedOver self.old self.new out.old.items out.new.items) }
    {
        let mut room = most;
        while room > 0 && !self.is_done() {
            room -= self.hand_over(out, room)?;
        }
        Ok(())
    }

    /// Appends some of the next bytes to a buffer, at most `room`. Returns how many.
    fn hand_over(&mut self, out: &mut Vec<u8>, room: usize) -> Result<usize, NoMemory>
        requires room { 0 < room }
        requires some { 0 < length self.old }
        ensures some { IfOk result (λ count. 0 < count) }
        ensures most { IfOk result (λ count. count ≤ room) }
        ensures within { IfOk result (λ count. count ≤ length self.old) }
        ensures appended { IfOk result (λ count. out.new.items ≡ out.old.items ++ take count self.old) }
        ensures rest { IfOk result (λ count. self.new ≡ drop count self.old) }
        ensures same { OnErr result (self.new ≡ self.old) }
        ensures unchanged { OnErr result (out.new.items ≡ out.old.items) }
    {
        if self.start == self.item.len() {
            self.start = 0;
            self.encoder.encode_next(&mut self.item)?;
        }
        let start = self.start;
        let count = room.min(self.item.len() - start);
        out.extend_from_slice(&self.item[start..start + count])?;
        self.start = start + count;
        Ok(count)
    }
}
